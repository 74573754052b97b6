// Document 01, "Elimination": the step of a given divisor, as `elimination_rules` has it, by masks of what is taken in each row.
// Rests on `bits`, `elimination_masks`, `elimination_lookup` and `elimination_rows`.
#![tactic(auto)]

ghost use Rattle.std.specs.Prelude.{◌≡◌, ◌++◌, ◌<◌, ◌≤◌, length};
ghost use Rattle.limits.specs.Limits.{positions, max_terms, term_symbols};
ghost use Rattle.bits.specs.Bits.{bits_of};
ghost use Rattle.elimination_rules.specs.Rows.{WellFormed};
ghost use Rattle.elimination_rules.specs.Lookup.{ExponentsBelow, Proper, sign_at, taken_flags, part_as, part_of_taken, kept_terms, lookup_term, lookup_terms_from};
ghost use Rattle.elimination_rules.specs.Elimination.{row_after, rows_after};
ghost use Rattle.elimination_masks.specs.Columns.{TakenMasks};
ghost use Rattle.elimination_rows.specs.State.{row_terms, rows_terms, Ready};

use bits::bit_at;
use elimination_lookup::lookup;
use elimination_rows::row::{Row, empty_row};
use elimination_rows::rows::Rows;
use elimination_rules::Divisor;
use limits::{MAX_ROWS, POSITIONS};
use term::Term;

// A term of the symbol, whose exponent is that of a taken co-divisor above the given one.
#[tactic(auto, using(bits::proofs::BitLaws::bit_of_list, crate::proofs::Stepping::exponent_flag))]
fn part_as(symbol: u16, exponent: u8, taken: u16, t: Term) -> bool
    requires { t.exponent < positions }
    ensures { result ≡ part_as symbol exponent (bits_of taken positions) t }
{
    let e = t.exponent();
    t.symbol() == symbol && e >= exponent && bit_at(taken, (e - exponent) as u16)
}

// A term is part of a taken occurrence, as its first or its second term.
fn part_of_taken(d: Divisor, taken: u16, t: Term) -> bool
    requires { t.exponent < positions }
    ensures { result ≡ part_of_taken d (bits_of taken positions) t }
{
    part_as(d.a, d.ea, taken, t) || part_as(d.b, d.eb, taken, t)
}

// The terms that are part of no taken occurrence.
fn kept_terms(d: Divisor, taken: u16, row: &[Term]) -> Row
    requires { ExponentsBelow positions row.now × (length row.now ≤ max_terms) }
    ensures { row_terms result ≡ kept_terms d (bits_of taken positions) row.now }
{
    let mut kept = empty_row();
    for t in row {
        if !part_of_taken(d, taken, *t) {
            kept.push(*t);
        }
    }
    kept
}

// The sign of an occurrence is that of its first term, which the row has.
fn new_term(row: &[Term], symbol: u16, d: Divisor, c: usize) -> Term
    requires { (symbol < term_symbols) × (c < positions) }
    ensures { result ≡ lookup_term symbol (sign_at row.now) d c }
{
    let first = lookup(row, d.a, d.ea as usize + c);
    let negative = first.is_some_and(|found| found.negative);
    Term::new(symbol, c as u8, negative)
}

// Each taken pair of a row becomes one term: the new symbol, the co-divisor, the occurrence's sign. The new terms stand behind those that are kept.
fn add_new_terms(rest: &mut Row, row: &[Term], symbol: u16, d: Divisor, taken: u16)
    requires { (symbol < term_symbols) × (length (row_terms rest.old ++ lookup_terms_from symbol (sign_at row.now) d 0 (bits_of taken positions)) ≤ max_terms) }
    ensures { row_terms rest.new ≡ row_terms rest.old ++ lookup_terms_from symbol (sign_at row.now) d 0 (bits_of taken positions) }
{
    for c in 0..POSITIONS {
        if bit_at(taken, c as u16) {
            rest.push(new_term(row, symbol, d, c));
        }
    }
}

// The new symbol is the largest, so the new terms stand last.
fn row_after(symbol: u16, d: Divisor, taken: u16, row: &[Term]) -> Row
    requires { (symbol < term_symbols) × Proper d × WellFormed positions symbol row.now × (length row.now ≤ max_terms) × (bits_of taken positions ≡ taken_flags (sign_at row.now) d positions) }
    ensures { row_terms result ≡ row_after symbol d row.now }
{
    let mut out = kept_terms(d, taken, row);
    add_new_terms(&mut out, row, symbol, d, taken);
    out
}

// A row in which nothing is taken stays as it is.
pub fn rows_after(symbol: u16, d: Divisor, taken: [u16; MAX_ROWS], rows: Rows) -> Rows
    requires { Ready symbol (rows_terms rows) × (symbol < term_symbols) × Proper d × TakenMasks d (rows_terms rows) taken }
    ensures { rows_terms result ≡ rows_after symbol d (rows_terms rows) }
{
    let mut out = rows;
    for (i, row) in rows.as_slice().iter().enumerate() {
        let in_row = taken[i];
        if in_row != 0 {
            out.put(i, row_after(symbol, d, in_row, row.as_slice()));
        }
    }
    out
}
