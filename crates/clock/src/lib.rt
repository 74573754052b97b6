// Document 01, "One vector every clock" and "Why a record was declined": a list of vectors through a netlist's clocked form, refusals 7 to
// 12, 6, 15, 16, 21, as `clock_rules` has it. The netlist is read and its schedule worked out once for the whole list. Rests on
// `netlist_read`, `netlist_run` for the samples' test, `clock_delays`, `clock_sources`, `clock_edge`,
// `arrays` and `refusals`.
#![tactic(auto)]

ghost use Rattle.std.specs.Prelude.{◌≡◌, ◌*◌, ◌≤◌, length};
ghost use Rattle.limits.specs.Limits.{max_operations};
ghost use Rattle.layout_rules.specs.Places.{netlist_in};
ghost use Rattle.board_rules.specs.Width.{Samples};
ghost use Rattle.netlist_rules.specs.Run.{ran};
ghost use Rattle.clock_rules.specs.Delays.{registers};
ghost use Rattle.clock_rules.specs.Clocked.{outputs_from, store_from, cleared, clocked_outputs, clocked_store, vectors_of, in_order};
ghost use Rattle.clock_rules.specs.Answer.{vector_count, vectors_in, list_answer, clock_answer, clock_outputs, clock_store};
ghost use Rattle.clock_rules.specs.Tables.{LongestHeld, PlacesHeld};
ghost use Rattle.refusals.specs.Numbers.{refusal_in, place_in};

use arrays::filled;
use board_rules::FORMS_LENGTH;
use clock_delays::depths::NetlistDepths;
use clock_edge::schedule::Schedule;
use clock_rules::Operands;
use limits::{MAX_OPERATIONS, MAX_ROWS, MAX_SYMBOLS};
use netlist_read::accepted::Netlist;
use netlist_rules::RunAnswer;
use refusals::{Refusal, Refused};

// How many vectors of n samples so many samples are.
pub fn vector_count(n: usize, samples: usize) -> usize
    ensures { result ≡ vector_count n samples }
{
    samples.checked_div(n).unwrap_or(0)
}

// 6, 15, 16 or 21 of a list, for a netlist of so many registers.
fn test_list(
    netlist: &Netlist,
    total: usize,
    samples: &[i32],
    store: usize,
    outputs: usize,
) -> Result<(), Refused>
    ensures { ran (refusal_in result) (place_in result) ≡ list_answer netlist.now.head total samples.now store outputs }
{
    if store < total {
        return Err(Refusal::ShortBuffer.at(0));
    }
    let clocks = vector_count(netlist.n(), samples.len());
    if samples.len() != clocks * netlist.n() {
        return Err(Refusal::SampleCount.at(0));
    }
    if outputs != clocks * netlist.m() {
        return Err(Refusal::OutputCount.at(0));
    }
    netlist_run::fit_answer(samples, netlist.head.width)
}

// The whole list, one vector a clock, from a cleared store on.
fn clock_vectors(
    schedule: &Schedule,
    clocks: usize,
    samples: &[i32],
    store: &mut [i64],
    outputs: &mut [i64],
)
    requires samples_len { (length samples.now ≡ clocks * schedule.now.netlist.head.n) × (length outputs.old ≡ clocks * schedule.now.netlist.head.m) }
    requires samples { Samples schedule.now.netlist.head.width (length samples.now) samples.now }
    requires store_value { (store.old ≡ cleared (netlist_in schedule.now.netlist.bytes.now) store.old) × (registers (netlist_in schedule.now.netlist.bytes.now) ≤ length store.old) }
    ensures store_after { store.new ≡ store_from (netlist_in schedule.now.netlist.bytes.now) store.old (vectors_of schedule.now.netlist.head.n clocks samples.now) }
    ensures outputs_after { outputs.new ≡ in_order (outputs_from (netlist_in schedule.now.netlist.bytes.now) store.old (vectors_of schedule.now.netlist.head.n clocks samples.now)) }
{
    let n = schedule.netlist.n();
    let m = schedule.netlist.m();
    let mut values: [i64; MAX_OPERATIONS] = filled(0);
    for clock in 0..clocks {
        let from = clock * n;
        let to = clock * m;
        clock_edge::one_clock(
            schedule,
            &samples[from..from + n],
            &mut values,
            store,
            &mut outputs[to..to + m],
        );
    }
}

// A list in order, through a netlist whose tables of delays are filled. They are handed on here alone, so they are no struct.
fn clock_list(
    depths: &NetlistDepths,
    longest: &[usize; MAX_SYMBOLS],
    places: &[usize; MAX_SYMBOLS],
    total: usize,
    samples: &[i32],
    store: &mut [i64],
    outputs: &mut [i64],
)
    requires longest_held { LongestHeld (netlist_in depths.now.netlist.bytes.now) longest.now × (PlacesHeld (netlist_in depths.now.netlist.bytes.now) places.now × (total ≡ registers (netlist_in depths.now.netlist.bytes.now))) }
    requires samples_len { (length samples.now ≡ vector_count depths.now.netlist.head.n (length samples.now) * depths.now.netlist.head.n) × (length outputs.old ≡ vector_count depths.now.netlist.head.n (length samples.now) * depths.now.netlist.head.m) }
    requires samples { Samples depths.now.netlist.head.width (length samples.now) samples.now × (total ≤ length store.old) }
    ensures store_after { store.new ≡ clocked_store (netlist_in depths.now.netlist.bytes.now) store.old (vectors_in (netlist_in depths.now.netlist.bytes.now) samples.now) }
    ensures outputs_after { outputs.new ≡ in_order (clocked_outputs (netlist_in depths.now.netlist.bytes.now) store.old (vectors_in (netlist_in depths.now.netlist.bytes.now) samples.now)) }
{
    let netlist = depths.netlist;
    let mut waiting: [usize; MAX_SYMBOLS] = filled(0);
    let symbols = netlist.n() + netlist.operations();
    let entries = clock_delays::fill_waiting(longest, symbols, &mut waiting);
    let mut operands: [Operands; MAX_OPERATIONS] = filled(Operands {
        first: 0,
        second: 0,
    });
    clock_sources::fill_operands(depths, places, &mut operands);
    let mut sources: [usize; MAX_ROWS] = [0; MAX_ROWS];
    clock_sources::fill_outputs(depths, places, &mut sources);
    let schedule = Schedule {
        netlist,
        longest,
        waiting: &waiting[..entries],
        operands: &operands,
        outputs: &sources,
    };
    store[..total].fill(0);
    let clocks = vector_count(netlist.n(), samples.len());
    clock_vectors(&schedule, clocks, samples, store, outputs);
}

// 6, 15, 16 or 21, of a netlist that read accepts, or the list through it.
fn clock_netlist(
    depths: &NetlistDepths,
    samples: &[i32],
    store: &mut [i64],
    outputs: &mut [i64],
) -> Result<(), Refused>
    ensures value { ran (refusal_in result) (place_in result) ≡ clock_answer depths.now.netlist.bytes.now samples.now (length store.old) (length outputs.old) }
    ensures store_after { store.new ≡ clock_store depths.now.netlist.bytes.now samples.now store.old (length outputs.old) }
    ensures outputs_after { outputs.new ≡ clock_outputs depths.now.netlist.bytes.now samples.now store.old outputs.old }
{
    let mut longest: [usize; MAX_SYMBOLS] = filled(0);
    clock_delays::fill_longest(depths, &mut longest);
    let mut places: [usize; MAX_SYMBOLS] = filled(0);
    let total = clock_delays::fill_places(&depths.netlist, &longest, &mut places);
    test_list(&depths.netlist, total, samples, store.len(), outputs.len())?;
    clock_list(depths, &longest, &places, total, samples, store, outputs);
    Ok(())
}

// The same for any bytes; 7 to 12 too.
fn clock_bytes(
    bytes: &[u8],
    samples: &[i32],
    store: &mut [i64],
    outputs: &mut [i64],
) -> Result<(), Refused>
    ensures value { ran (refusal_in result) (place_in result) ≡ clock_answer bytes.now samples.now (length store.old) (length outputs.old) }
    ensures store_after { store.new ≡ clock_store bytes.now samples.now store.old (length outputs.old) }
    ensures outputs_after { outputs.new ≡ clock_outputs bytes.now samples.now store.old outputs.old }
{
    let mut forms: [i64; FORMS_LENGTH] = filled(0);
    let mut depths: [u16; MAX_SYMBOLS] = filled(0);
    let netlist = netlist_read::open_with(bytes, &mut forms, &mut depths)?;
    let depths = NetlistDepths {
        netlist,
        depths: &depths,
    };
    clock_netlist(&depths, samples, store, outputs)
}

// Clears a netlist's registers at the front of the lent store and clocks the whole list through them, for any bytes: m outputs a clock, and
// the registers after the last edge. A refusal leaves store and outputs as they were. Document 01's call answers by this struct, so a
// refusal is a number in it.
pub fn clock(netlist: &[u8], samples: &[i32], store: &mut [i64], outputs: &mut [i64]) -> RunAnswer
    ensures value { result ≡ clock_answer netlist.now samples.now (length store.old) (length outputs.old) }
    ensures store_after { store.new ≡ clock_store netlist.now samples.now store.old (length outputs.old) }
    ensures outputs_after { outputs.new ≡ clock_outputs netlist.now samples.now store.old outputs.old }
{
    clock_bytes(netlist, samples, store, outputs).into()
}
