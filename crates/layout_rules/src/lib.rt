// Document 01, "Matrix record" and "Netlist and board machine": the records of a netlist as data, and what the step hands back. Their bytes
// and places are defined in specs/, the laws stand in proofs/. Rests on `limits` and `integers`.
#![tactic(auto)]

// Kind 2, or 6: m rows, n columns, the number of operations, the sample width.
#[derive(Clone, Copy)]
pub struct Head {
    pub m: u8,
    pub n: u8,
    pub operations: u16,
    pub width: u8,
}

// Kind 3: (a shifted by sa) plus (sign 0) or minus (sign 1) (b shifted by sb), and its width. The sign is the record's byte, any of 256,
// since `operation_of` gives it before refusal 9 tests it.
#[derive(Clone, Copy)]
pub struct Operation {
    pub sign: u8,
    pub a: u16,
    pub sa: u8,
    pub b: u16,
    pub sb: u8,
    pub width: u8,
}

// Kind 4: plus (sign 0) or minus (sign 1) the symbol's entry shifted, or zero (sign 2), and its width. The sign is a byte too, by
// `output_of`.
#[derive(Clone, Copy)]
pub struct Output {
    pub sign: u8,
    pub symbol: u16,
    pub shift: u8,
    pub width: u8,
}

// Kind 5: the number of operations, and the netlist's depth.
#[derive(Clone, Copy)]
pub struct Totals {
    pub operations: u16,
    pub depth: u16,
}

// A step's numbers. A refusal has the place given, kind 0 and next place 0; an accepted step has refusal 0 at place 0. They are numbers,
// since the C interface has them so and `step_numbers` says what they are.
#[derive(Clone, Copy)]
pub struct StepNumbers {
    pub refusal: u8,
    pub place: usize,
    pub kind: u16,
    pub next: usize,
}

// What the step hands back: its numbers, as `numbers_of` has them, and the payload as a part of the lent bytes.
#[derive(Clone, Copy)]
pub struct StepAnswer<'a> {
    pub refusal: u8,
    pub place: usize,
    pub kind: u16,
    pub next: usize,
    pub payload: &'a [u8],
}
