// What is worked out once of a netlist for a list of vectors: the symbols with delays, and where each operand and output is read. Rests on
// `netlist_read`.
ghost use Rattle.std.specs.Prelude.{◌+◌};
ghost use Rattle.layout_rules.specs.Places.{netlist_in};
ghost use Rattle.clock_rules.specs.Tables.{LongestHeld, WaitingSymbols, OperandSources, OutputsHeld};

use clock_rules::Operands;
use limits::{MAX_OPERATIONS, MAX_ROWS, MAX_SYMBOLS};
use netlist_read::accepted::Netlist;

// The tables are lent, so that a schedule is small.
#[derive(Clone, Copy)]
pub struct Schedule<'a> {
    pub netlist: Netlist<'a>,
    pub longest: &'a [usize; MAX_SYMBOLS],
    pub waiting: &'a [usize],
    pub operands: &'a [Operands; MAX_OPERATIONS],
    pub outputs: &'a [usize; MAX_ROWS],
    ghost longest_held: { LongestHeld (netlist_in netlist.bytes.now) longest.now },
    ghost waiting_held: { WaitingSymbols longest.now (netlist.head.n + netlist.head.operations) waiting.now },
    ghost operands_held: { OperandSources netlist.bytes.now operands.now },
    ghost outputs_held: { OutputsHeld netlist.bytes.now outputs.now },
}
