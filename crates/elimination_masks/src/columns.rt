// Document 01, "Elimination": occurrences in all rows, from the columns of a and of b. Rests on `masks`.
// Exponents are bounded in clauses and not in the type: `divisor_of_key` gives a divisor for every key, also of exponents up to 31.
ghost use Rattle.std.specs.Prelude.{◌≡◌, ◌<◌, get_or};
ghost use Rattle.limits.specs.Limits.{max_rows, positions};
ghost use Rattle.elimination_masks.specs.Masks.{occurrences_in, mask_score, masks_differ, none_among, TakenAt, Without, Made};

use crate::masks;
use elimination_rules::Divisor;
use limits::MAX_ROWS;

// The terms of one symbol in all rows: the masks of its plus terms, row by row, and then those of its minus terms.
pub type Column = [u16; 2 * MAX_ROWS];

// The occurrences in row i.
fn occurrences_in(x: Column, y: Column, i: usize, d: Divisor) -> u16
    requires { (i < max_rows) × (d.ea < positions) × (d.eb < positions) }
    ensures { result ≡ occurrences_in d x y i }
{
    masks::occurrences(x[i], x[MAX_ROWS + i], y[i], y[MAX_ROWS + i], d)
}

// The score where a and b are one symbol.
fn score_apart(x: Column, y: Column, d: Divisor) -> u8
    requires { (d.ea < positions) × (d.eb < positions) × (d.a ≡ d.b) }
    ensures { result ≡ mask_score d x y }
{
    let mut count: u16 = 0;
    for i in 0..MAX_ROWS {
        let occurring = occurrences_in(x, y, i, d);
        if occurring != 0 {
            count += u16::count_ones(masks::apart(occurring, d.eb)) as u16;
        }
    }
    count as u8
}

// The score where they are two: no two occurrences overlap. A loop of its own, since one for both would test in each row what they are.
fn score_all(x: Column, y: Column, d: Divisor) -> u8
    requires { (d.ea < positions) × (d.eb < positions) × (d.a ≡ d.b → ⊥) }
    ensures { result ≡ mask_score d x y }
{
    let mut count: u16 = 0;
    for i in 0..MAX_ROWS {
        let occurring = occurrences_in(x, y, i, d);
        count += u16::count_ones(occurring) as u16;
    }
    count as u8
}

// The score: what is taken in all rows.
pub fn score(x: Column, y: Column, d: Divisor) -> u8
    requires { (d.ea < positions) × (d.eb < positions) }
    ensures { result ≡ mask_score d x y }
{
    if d.a == d.b {
        return score_apart(x, y, d);
    }
    score_all(x, y, d)
}

// Whether the occurrences in the columns after a step are others than those before it.
pub fn differ(x: Column, y: Column, x_after: Column, y_after: Column, d: Divisor) -> bool
    requires { (d.ea < positions) × (d.eb < positions) }
    ensures { result ≡ masks_differ d x y x_after y_after }
{
    let mut changed: u16 = 0;
    for i in 0..MAX_ROWS {
        let before = occurrences_in(x, y, i, d);
        let after = occurrences_in(x_after, y_after, i, d);
        changed |= before ^ after;
    }
    changed != 0
}

// Whether no occurrence is among those that the masks ask for.
pub fn none_among(x: Column, y: Column, asked: [u16; MAX_ROWS], d: Divisor) -> bool
    requires { (d.ea < positions) × (d.eb < positions) }
    ensures { result ≡ none_among d x y (λ i. get_or asked i 0) }
{
    let mut met: u16 = 0;
    for i in 0..MAX_ROWS {
        let occurring = occurrences_in(x, y, i, d);
        met |= occurring & asked[i];
    }
    met == 0
}

// What is taken in each row.
pub fn taken(x: Column, y: Column, d: Divisor) -> [u16; MAX_ROWS]
    requires { (d.ea < positions) × (d.eb < positions) }
    ensures { TakenAt result d x y }
{
    let mut out = [0u16; MAX_ROWS];
    for i in 0..MAX_ROWS {
        let occurring = occurrences_in(x, y, i, d);
        out[i] = if d.a == d.b {
            masks::apart(occurring, d.eb)
        } else {
            occurring
        };
    }
    out
}

// A column without the terms of the taken occurrences, of which this is the one with exponent e.
pub fn without(x: Column, taken: [u16; MAX_ROWS], e: u8) -> Column
    requires { e < positions }
    ensures { Without result x taken e }
{
    let e = e as u16;
    let mut out = x;
    for i in 0..MAX_ROWS {
        let gone = taken[i] << e;
        out[i] = x[i] ^ (x[i] & gone);
        out[MAX_ROWS + i] = x[MAX_ROWS + i] ^ (x[MAX_ROWS + i] & gone);
    }
    out
}

// The column of the new symbol: the co-divisors of the taken occurrences, with the signs of their first terms. A closure for the masks of
// `without` and of this would need a contract as long as either loop.
pub fn made(x: Column, taken: [u16; MAX_ROWS], e: u8) -> Column
    requires { e < positions }
    ensures { Made result x taken e }
{
    let e = e as u16;
    let mut out = x;
    for i in 0..MAX_ROWS {
        out[i] = (x[i] >> e) & taken[i];
        out[MAX_ROWS + i] = (x[MAX_ROWS + i] >> e) & taken[i];
    }
    out
}
