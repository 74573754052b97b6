// Document 01, "Verilog": the module of a netlist as data, its text, what its assignments mean, and what write_verilog answers. Rests on
// `layout_rules`, `board_rules`, `netlist_rules` and `text`; the theorem that the module computes what the board machine computes stands
// in proofs/.
#![tactic(auto)]

use limits::{MAX_COLUMNS, MAX_OPERATIONS, MAX_ROWS};

// "37,987 bytes always suffice."
pub const ENOUGH_TEXT: usize = 27 + 26 * MAX_COLUMNS + 57 * MAX_ROWS + 74 * MAX_OPERATIONS;

// What write_verilog returns: a refusal and its place, or the bytes written. The refusal is a number, since the C interface has it so and
// `verilog_answer` says what it is.
#[derive(Clone, Copy)]
pub struct VerilogAnswer {
    pub refusal: u8,
    pub place: usize,
    pub written: usize,
}
