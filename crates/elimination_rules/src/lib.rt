// Document 01, "Elimination": the divisor of two terms of a row. Its definitions stand in specs/ and its laws in proofs/; they rest on `limits`, `term` and `digits`.
#![tactic(auto)]

// "A divisor is thus a, b, ea, eb and the sign of b."
#[derive(Clone, Copy)]
pub struct Divisor {
    pub a: u16,
    pub b: u16,
    pub ea: u8,
    pub eb: u8,
    pub minus: bool,
}
