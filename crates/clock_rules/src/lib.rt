// Document 01, "One vector every clock": the clocked form of a netlist, its registers, and what registers and clock answer. Rests on
// `limits`, `layout_rules`, `board_rules` and `netlist_rules`; the theorem that a later output is run's stands in proofs/.
#![tactic(auto)]

// What registers returns: a refusal and its place, or the total of the registers. The refusal is a number, since the C interface has it so
// and `registers_answer` says what it is.
#[derive(Clone, Copy)]
pub struct RegistersAnswer {
    pub refusal: u8,
    pub place: usize,
    pub registers: usize,
}

// By how many clocks a symbol's value is delayed.
#[derive(Clone, Copy)]
pub struct Delay {
    pub symbol: usize,
    pub clocks: usize,
}

// Where the values of both operands of an operation are read, in the vector followed by the store.
#[derive(Clone, Copy)]
pub struct Operands {
    pub first: usize,
    pub second: usize,
}
