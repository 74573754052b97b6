// Document 01, "Netlist and board machine": the netlist of a matrix and what compile answers. Rests on `limits`,
// `elimination_rules`, `layout_rules`, `board_rules` and `sum_rules`; the laws of the netlist stand in proofs/.
#![tactic(auto)]

ghost use Rattle.std.specs.Prelude.{◌≡◌};
ghost use Rattle.compile_rules.specs.Compile.{compile_refused};

// What compile returns: a refusal and its place, or the bytes written and the counts. The refusal is a number, since the C interface has it
// so and `compile_answer` and `Claim` speak of it.
#[derive(Clone, Copy)]
pub struct CompileAnswer {
    pub refusal: u8,
    pub place: usize,
    pub written: usize,
    pub operations: u16,
    pub plain: u16,
    pub divisors: u16,
    pub replacements: u16,
    pub depth: u16,
    pub negated: u16, // outputs with sign minus
}

impl CompileAnswer {
    // a refusal, with the place and all counts 0
    pub fn refused(refusal: u8) -> CompileAnswer
        ensures { result ≡ compile_refused refusal 0 }
    {
        CompileAnswer {
            refusal,
            place: 0,
            written: 0,
            operations: 0,
            plain: 0,
            divisors: 0,
            replacements: 0,
            depth: 0,
            negated: 0,
        }
    }
}
