// Document 01, "Reading, checking, running" and "Why a record was declined": running a netlist on samples, refusals 7 to 12, 15, 16, 21,
// as `netlist_rules` has it. Rests on `netlist_read`, `arrays`, `refusals`, and `board_width` for a number's positive and negative part.
#![tactic(auto)]

ghost use Rattle.std.specs.Prelude.{◌≡◌, map, ◌+◌, ◌≤◌, length, take};
ghost use Rattle.limits.specs.Limits.{max_columns, max_symbols};
ghost use Rattle.limits.specs.Size.{SampleWidth};
ghost use Rattle.layout_rules.specs.Places.{operations_in, outputs_in};
ghost use Rattle.board_rules.specs.Machine.{machine, output_value};
ghost use Rattle.board_rules.specs.Width.{Samples};
ghost use Rattle.netlist_rules.specs.Run.{ran, fits, fit_answer, run_answer, run_outputs};
ghost use Rattle.netlist_run.specs.Board.{SamplesHeld, BoardReady};
ghost use Rattle.refusals.specs.Numbers.{refusal_in, place_in};

use arrays::filled;
use limits::MAX_SYMBOLS;
use netlist_read::accepted::Netlist;
use netlist_rules::RunAnswer;
use refusals::{Refusal, Refused};

// The samples, the first values of the board machine.
fn start_values(samples: &[i32], values: &mut [i64; MAX_SYMBOLS])
    requires { (length samples.now ≤ max_columns) × (length values.old ≡ max_symbols) }
    ensures { SamplesHeld samples.now values.new }
{
    for (j, sample) in samples.iter().enumerate() {
        values[j] = i64::from(*sample);
    }
}

// Whether a sample fits s bits.
fn sample_fits(x: i64, s: u8) -> bool
    requires { SampleWidth s }
    ensures { result ≡ fits s x }
{
    let half = board_width::scaled(1, s - 1);
    if x < 0 {
        board_width::negative_part(x) <= half
    } else {
        board_width::positive_part(x) < half
    }
}

// 21 at the lowest index of a sample that does not fit s bits.
pub fn fit_answer(samples: &[i32], s: u8) -> Result<(), Refused>
    requires { SampleWidth s }
    ensures { ran (refusal_in result) (place_in result) ≡ fit_answer s 0 samples.now }
{
    for (i, sample) in samples.iter().enumerate() {
        if !sample_fits(i64::from(*sample), s) {
            return Err(Refusal::SampleOutside.at(i));
        }
    }
    Ok(())
}

// The operations in order, each value at its symbol.
fn run_operations(netlist: &Netlist, values: &mut [i64; MAX_SYMBOLS])
    requires { (length values.old ≡ max_symbols) × Samples netlist.now.head.width netlist.now.head.n (take netlist.now.head.n values.old) }
    ensures { (length values.new ≡ max_symbols) × (take (netlist.now.head.n + netlist.now.head.operations) values.new ≡ machine (take netlist.now.head.n values.old) (operations_in netlist.now.bytes.now)) }
{
    let n = netlist.n();
    for k in 0..netlist.operations() {
        board_tables::append_value(values, netlist.operation(k), n + k);
    }
}

// The outputs, from the values of all entries.
fn fill_outputs(netlist: &Netlist, values: &[i64; MAX_SYMBOLS], outputs: &mut [i64])
    requires outputs_len { length outputs.old ≡ netlist.now.head.m }
    requires board_ready { BoardReady netlist.now.bytes.now values.now }
    ensures { outputs.new ≡ map (output_value values.now) (outputs_in netlist.now.bytes.now) }
{
    for (i, output) in outputs.iter_mut().enumerate() {
        let o = netlist.output(i);
        let x = values[o.symbol as usize];
        *output = board_tables::output_value(o.sign, x, o.shift);
    }
}

// The board machine's outputs for a vector of samples, or why they are declined, for any bytes.
fn try_run(netlist: &[u8], samples: &[i32], outputs: &mut [i64]) -> Result<(), Refused>
    ensures value { ran (refusal_in result) (place_in result) ≡ run_answer netlist.now samples.now (length outputs.old) }
    ensures outputs_after { outputs.new ≡ run_outputs netlist.now samples.now outputs.old }
{
    let read = netlist_read::open(netlist)?;
    if samples.len() != read.n() {
        return Err(Refusal::SampleCount.at(0));
    }
    if outputs.len() != read.m() {
        return Err(Refusal::OutputCount.at(0));
    }
    fit_answer(samples, read.head.width)?;
    let mut values: [i64; MAX_SYMBOLS] = filled(0);
    start_values(samples, &mut values);
    run_operations(&read, &mut values);
    fill_outputs(&read, &values, outputs);
    Ok(())
}

// The board machine's outputs for a vector of samples, for any bytes; a refusal leaves every output as it was.
pub fn run(netlist: &[u8], samples: &[i32], outputs: &mut [i64]) -> RunAnswer
    ensures value { result ≡ run_answer netlist.now samples.now (length outputs.old) }
    ensures outputs_after { outputs.new ≡ run_outputs netlist.now samples.now outputs.old }
{
    try_run(netlist, samples, outputs).into()
}
