// Document 01, "One vector every clock": one clock of a netlist's clocked form, in the lent store, as `clock_rules` has it. The outputs are
// read and the operations' values worked out before anything in the store changes. Rests on `board_tables` and on `netlist_read`.
#![tactic(auto)]

pub mod schedule; // schedule.rt: what is worked out once for a list of vectors

ghost use Rattle.std.specs.Prelude.{◌≡◌, ◌++◌, ◌+◌, ◌≤◌, ◌<◌, length, take};
ghost use Rattle.std.proofs.lemmas.List.Edits.{sets};
ghost use Rattle.limits.specs.Limits.{max_operations};
ghost use Rattle.layout_rules.specs.Places.{netlist_in};
ghost use Rattle.board_rules.specs.Machine.{entry_at};
ghost use Rattle.clock_rules.specs.Clocked.{present_outputs, operations_after, edge};
ghost use Rattle.clock_rules.specs.InPlace.{shifted_in, shifted_by};
ghost use Rattle.clock_rules.specs.Tables.{StoreReady};

use limits::MAX_OPERATIONS;
use schedule::Schedule;

// The value at a place of the vector followed by the store.
fn value_at(samples: &[i32], store: &[i64], source: usize) -> i64
    requires { source < length samples.now + length store.now }
    ensures { result ≡ entry_at (samples.now ++ store.now) source }
{
    let n = samples.len();
    if source < n {
        return samples[source] as i64;
    }
    store[source - n]
}

// What each operation makes of its delayed operands.
fn work_out(schedule: &Schedule, samples: &[i32], store: &[i64], values: &mut [i64; MAX_OPERATIONS])
    requires { StoreReady (netlist_in schedule.now.netlist.bytes.now) samples.now store.now × (length values.old ≡ max_operations) }
    ensures { (length values.new ≡ max_operations) × (take schedule.now.netlist.head.operations values.new ≡ operations_after (netlist_in schedule.now.netlist.bytes.now) samples.now store.now (netlist_in schedule.now.netlist.bytes.now).head.n (netlist_in schedule.now.netlist.bytes.now).operations) }
{
    for k in 0..schedule.netlist.operations() {
        let o = schedule.netlist.operation(k);
        let sources = schedule.operands[k];
        let x = value_at(samples, store, sources.first);
        let y = value_at(samples, store, sources.second);
        values[k] = board_tables::combined(o.sign, x, o.sa, y, o.sb);
    }
}

// The outputs of this clock.
fn fill_outputs(schedule: &Schedule, samples: &[i32], store: &[i64], outputs: &mut [i64])
    requires { StoreReady (netlist_in schedule.now.netlist.bytes.now) samples.now store.now × (length outputs.old ≡ schedule.now.netlist.head.m) }
    ensures { outputs.new ≡ present_outputs (netlist_in schedule.now.netlist.bytes.now) samples.now store.now }
{
    for i in 0..schedule.netlist.m() {
        let o = schedule.netlist.output(i);
        let x = value_at(samples, store, schedule.outputs[i]);
        outputs[i] = board_tables::output_value(o.sign, x, o.shift);
    }
}

// A value goes into the first of so many registers, the old value of each into the next, and that of the last is lost.
fn shift_in(store: &mut [i64], place: usize, count: usize, value: i64)
    requires { place + count ≤ length store.old }
    ensures { store.new ≡ shifted_in store.old place count value }
{
    let mut carried = value;
    for at in place..place + count {
        carried = std::mem::replace(&mut store[at], carried);
    }
}

// Each waiting symbol's value goes into its delays, which begin behind the operations' registers; the other symbols have none.
fn shift_delays(schedule: &Schedule, samples: &[i32], store: &mut [i64])
    requires { StoreReady (netlist_in schedule.now.netlist.bytes.now) samples.now store.old }
    ensures { store.new ≡ shifted_by schedule.now.longest.now samples.now store.old schedule.now.netlist.head.operations 0 (length samples.now + schedule.now.netlist.head.operations) }
{
    let mut place = schedule.netlist.operations();
    for &symbol in schedule.waiting {
        let value = value_at(samples, store, symbol);
        let count = schedule.longest[symbol];
        shift_in(store, place, count, value);
        place += count;
    }
}

// The operations' values into their registers.
fn store_values(values: &[i64; MAX_OPERATIONS], operations: usize, store: &mut [i64])
    requires { (length values.now ≡ max_operations) × ((operations ≤ max_operations) × (operations ≤ length store.old)) }
    ensures { store.new ≡ sets store.old 0 (take operations values.now) }
{
    // Of no operations there is nothing to copy, and the call for it would be a fifth of a small bank's clock.
    if operations > 0 {
        store[..operations].copy_from_slice(&values[..operations]);
    }
}

// One clock with a vector at the inputs: the outputs before the edge, and the store after it.
pub fn one_clock(
    schedule: &Schedule,
    samples: &[i32],
    values: &mut [i64; MAX_OPERATIONS],
    store: &mut [i64],
    outputs: &mut [i64],
)
    requires store_ready { StoreReady (netlist_in schedule.now.netlist.bytes.now) samples.now store.old }
    requires lengths { (length values.old ≡ max_operations) × (length outputs.old ≡ schedule.now.netlist.head.m) }
    ensures store_after { (length values.new ≡ max_operations) × (store.new ≡ edge (netlist_in schedule.now.netlist.bytes.now) samples.now store.old) }
    ensures outputs_after { outputs.new ≡ present_outputs (netlist_in schedule.now.netlist.bytes.now) samples.now store.old }
{
    fill_outputs(schedule, samples, store, outputs);
    work_out(schedule, samples, store, values);
    shift_delays(schedule, samples, store);
    store_values(values, schedule.netlist.operations(), store);
}
