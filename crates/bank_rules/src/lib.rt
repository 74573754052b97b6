// Demand 3: one claim about compile, read and run together, in specs/Claim, and the theorem that it holds. Rests on `compile_rules` and
// `netlist_rules`.
#![tactic(auto)]

use compile_rules::CompileAnswer;
use netlist_rules::{ReadAnswer, RunAnswer};

// What the three calls return, each lent what the one before it wrote.
#[derive(Clone, Copy)]
pub struct Answers {
    pub compile: CompileAnswer,
    pub read: ReadAnswer,
    pub run: RunAnswer,
}
