// Document 01, "One vector every clock": where in the vector followed by the store each operand and output of a netlist is read, as
// `clock_rules` has it; worked out once for a list of vectors. Rests on `clock_delays`.
#![tactic(auto)]

ghost use Rattle.std.specs.Prelude.{◌≡◌, ◌+◌, ◌≤◌, length};
ghost use Rattle.limits.specs.Limits.{max_rows, max_columns, max_operations};
ghost use Rattle.layout_rules.specs.Places.{netlist_in};
ghost use Rattle.clock_rules.specs.InPlace.{source_at};
ghost use Rattle.clock_rules.specs.Tables.{most_registers, PlacesHeld, OperandSources, OutputsHeld};

use clock_delays::depths::NetlistDepths;
use clock_rules::{Delay, Operands};
use limits::{MAX_OPERATIONS, MAX_ROWS, MAX_SYMBOLS};

// Where a symbol's delayed value is read, its delays beginning at a place.
fn source_of(n: usize, place: usize, delay: Delay) -> usize
    requires { (n ≤ max_columns) × (place + delay.clocks ≤ most_registers) }
    ensures { result ≡ source_at n place delay.symbol delay.clocks }
{
    if delay.clocks == 0 {
        return delay.symbol;
    }
    n + (place + (delay.clocks - 1))
}

// Where both operands of each operation are read.
pub fn fill_operands(
    depths: &NetlistDepths,
    places: &[usize; MAX_SYMBOLS],
    operands: &mut [Operands; MAX_OPERATIONS],
)
    requires { PlacesHeld (netlist_in depths.now.netlist.bytes.now) places.now × (length operands.old ≡ max_operations) }
    ensures { OperandSources depths.now.netlist.bytes.now operands.new }
{
    let n = depths.netlist.n();
    for k in 0..depths.netlist.operations() {
        let (first, second) = depths.operand_delays(k);
        operands[k] = Operands {
            first: source_of(n, places[first.symbol], first),
            second: source_of(n, places[second.symbol], second),
        };
    }
}

// Where each output is read.
pub fn fill_outputs(
    depths: &NetlistDepths,
    places: &[usize; MAX_SYMBOLS],
    sources: &mut [usize; MAX_ROWS],
)
    requires { PlacesHeld (netlist_in depths.now.netlist.bytes.now) places.now × (length sources.old ≡ max_rows) }
    ensures { OutputsHeld depths.now.netlist.bytes.now sources.new }
{
    let n = depths.netlist.n();
    for i in 0..depths.netlist.m() {
        let delay = depths.output_delay(i);
        sources[i] = source_of(n, places[delay.symbol], delay);
    }
}
