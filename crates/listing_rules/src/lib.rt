// Document 01, "Programs": the text that the program list-bank prints, as specs/ defines it. Rests on `text` and `layout_rules`.
#![tactic(auto)]

// Bytes that hold the first line, an operation's and an output's.
pub const LONGEST_COUNTS_LINE: usize = 102;

pub const LONGEST_OPERATION_LINE: usize = 48;

pub const LONGEST_OUTPUT_LINE: usize = 38;

// The counts of the first line.
#[derive(Clone, Copy)]
pub struct Counts {
    pub inputs: u16,
    pub outputs: u16,
    pub operations: u16,
    pub plain: u16,
    pub divisors: u16,
    pub replacements: u16,
    pub depth: u16,
}
