// Document 01, "One vector every clock": clock, with the list of samples given as bytes, 4 bytes each, little-endian two's complement. Rests
// on `clock`, on `netlist_read` for m and n, and on `run_text` for the samples.
ghost use Rattle.std.specs.Prelude.{◌≡◌, [], ◌*◌, ◌≤◌, length};
ghost use Rattle.limits.specs.Limits.{max_rows};
ghost use Rattle.clock_rules.specs.Answer.{clock_answer, clock_outputs};
ghost use Rattle.clock_text.specs.ListBytes.{most_samples, store_length, store_lent, or_not_whole, bytes_answer, bytes_outputs, clocked_answer, outputs_after, fitting, clocked_in, outputs_in};

use arrays::filled;
use limits::MAX_ROWS;
use netlist_rules::RunAnswer;
use refusals::Refusal;
use run_text::samples::fill_samples;

// The longest list.
pub const MOST_SAMPLES: usize = 32768;

// Outputs that hold those of any list: at most MAX_ROWS a clock, and a clock takes at least one sample.
pub const MOST_OUTPUTS: usize = MAX_ROWS * MOST_SAMPLES;

// Registers that are lent to clock.
const STORE_LENGTH: usize = 131072;

// What clock_bytes returns: a refusal and its place, the m that read says, and how many clocks there are, one for each vector.
// No Result, since the equation of clock_bytes gives rows and clocks beside a refusal too.
#[derive(Clone, Copy)]
pub struct Clocked {
    pub refusal: u8,
    pub place: usize,
    pub rows: usize,
    pub clocks: usize,
}

// Clock on a list, with a store of its own. These functions hand on the documented call's answer, by the equations of `clock_answer`.
fn clock_list(netlist: &[u8], samples: &[i32], outputs: &mut [i64]) -> RunAnswer
    ensures value { result ≡ clock_answer netlist.now samples.now store_length (length outputs.old) }
    ensures outputs_after { outputs.new ≡ clock_outputs netlist.now samples.now store_lent outputs.old }
{
    let mut store: [i64; STORE_LENGTH] = filled(0);
    clock::clock(netlist, samples, &mut store, outputs)
}

// The answer where a part of a sample is left over: 7 to 12 or 6, as for an empty list, else 15.
fn not_whole(netlist: &[u8]) -> RunAnswer
    ensures { result ≡ or_not_whole (clock_answer netlist.now [] store_length 0) }
{
    let samples: [i32; 0] = [0; 0];
    let mut outputs: [i64; 0] = [0; 0];
    let empty = clock_list(netlist, &samples, &mut outputs);
    // A number, since the documented call answers by `clock_answer`.
    if empty.refusal != 0 {
        return empty;
    }
    RunAnswer {
        refusal: Refusal::SampleCount.number(),
        place: 0,
    }
}

// Clock on the samples that the bytes hold.
fn clock_on_bytes(netlist: &[u8], bytes: &[u8], outputs: &mut [i64]) -> RunAnswer
    requires { length bytes.now ≤ 4 * most_samples }
    ensures value { result ≡ bytes_answer netlist.now bytes.now (length outputs.old) }
    ensures outputs_after { outputs.new ≡ bytes_outputs netlist.now bytes.now outputs.old }
{
    if bytes.len() % 4 != 0 {
        return not_whole(netlist);
    }
    let count = bytes.len() / 4;
    let mut samples: [i32; MOST_SAMPLES] = filled(0);
    fill_samples(bytes, &mut samples[..count]);
    clock_list(netlist, &samples[..count], outputs)
}

// The same, with m outputs lent for each vector; those behind them stay as they were.
fn clock_fitting(netlist: &[u8], bytes: &[u8], outputs: &mut [i64]) -> Clocked
    requires { (length bytes.now ≤ 4 * most_samples) × (max_rows * most_samples ≤ length outputs.old) }
    ensures value { result ≡ clocked_answer netlist.now bytes.now }
    ensures outputs_after { outputs.new ≡ outputs_after netlist.now bytes.now outputs.old }
{
    let head = netlist_read::read(netlist);
    let rows = head.m as usize;
    let clocks = clock::vector_count(head.n as usize, bytes.len() / 4);
    let count = clocks * rows;
    let answer = clock_on_bytes(netlist, bytes, &mut outputs[..count]);
    Clocked {
        refusal: answer.refusal,
        place: answer.place,
        rows,
        clocks,
    }
}

// Whether the list is no longer than the longest, and as many outputs are lent as such a list can have.
#[tactic(auto, unfolding(crate::specs::ListBytes::fitting))]
fn list_fits(bytes: &[u8], outputs: usize) -> bool
    ensures { result ≡ fitting bytes.now outputs }
{
    bytes.len() <= 4 * MOST_SAMPLES && MOST_OUTPUTS <= outputs
}

// Clock on a list of samples as bytes; nothing where it is longer than the longest, or too few outputs are lent.
pub fn clock_bytes(netlist: &[u8], bytes: &[u8], outputs: &mut [i64]) -> Clocked
    ensures value { result ≡ clocked_in (length outputs.old) netlist.now bytes.now }
    ensures outputs_after { outputs.new ≡ outputs_in netlist.now bytes.now outputs.old }
{
    if !list_fits(bytes, outputs.len()) {
        return Clocked {
            refusal: 0,
            place: 0,
            rows: 0,
            clocks: 0,
        };
    }
    clock_fitting(netlist, bytes, outputs)
}
