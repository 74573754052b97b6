// Request A3: the entries that rows gain, each divisor at its first occurrence. Rests on `elimination_kept`, `elimination_order`,
// `elimination_rows` and `elimination_masks`.
#![tactic(auto)]

mod before; // before.rt: what comes before a row

ghost use Rattle.std.specs.Prelude.{◌≡◌, [], ◌∷◌, ◌++◌, ◌<◌, ◌≤◌, length, get_or, take};
ghost use Rattle.limits.specs.Limits.{positions, max_terms, term_symbols};
ghost use Rattle.elimination_rules.specs.Rows.{Precedes, WellFormed};
ghost use Rattle.elimination_rules.specs.Visit.{all_in_row};
ghost use Rattle.kept_rules.specs.Kept.{pairs_before, new_pairs, new_pairs_from};
ghost use Rattle.elimination_rows.specs.State.{no_term, row_terms, rows_terms, Ready};
ghost use Rattle.elimination_gained.specs.Gained.{TermFits, OrderedTo, columns_gained, RoomFor};

use crate::before::Before;
use elimination_kept::KeptScores;
use elimination_masks::columns::{Column, none_among, score};
use elimination_order::{co_divisor, divisor_of, key};
use elimination_rows::row::Row;
use elimination_rows::rows::Rows;
use limits::{MAX_ROWS, MAX_TERMS, TERM_SYMBOLS};
use term::Term;

// The divisor of two terms of a row, if they are its first occurrence.
fn add_pair(
    kept: &mut KeptScores,
    columns: &[Column; TERM_SYMBOLS],
    before: Before,
    t: Term,
    u: Term,
)
    requires { Precedes t u × TermFits t × TermFits u × RoomFor kept.old (columns_gained columns.now (record { row = before.row; pair = record { first = t; second = u } } ∷ [])) }
    ensures { kept.new ≡ kept.old ++ columns_gained columns.now (record { row = before.row; pair = record { first = t; second = u } } ∷ []) }
{
    let d = divisor_of(t, u);
    let asked = before.below(co_divisor(t, u));
    let x = columns[d.a as usize];
    let y = columns[d.b as usize];
    if none_among(x, y, asked, d) {
        kept.push(key(d), score(x, y, d));
    }
}

// Those of the term at j of a row, among its terms, with each term before it.
fn add_pairs_before(
    kept: &mut KeptScores,
    columns: &[Column; TERM_SYMBOLS],
    before: Before,
    terms: &[Term],
    j: usize,
)
    requires { OrderedTo j terms.now × RoomFor kept.old (columns_gained columns.now (all_in_row before.row (pairs_before (take j terms.now) (get_or terms.now j no_term)))) }
    ensures { kept.new ≡ kept.old ++ columns_gained columns.now (all_in_row before.row (pairs_before (take j terms.now) (get_or terms.now j no_term))) }
{
    let u = terms[j];
    for h in 0..j {
        add_pair(kept, columns, before, terms[h], u);
    }
}

// Those of the terms of a row that have the symbol or a later one.
fn gain_row(
    kept: &mut KeptScores,
    columns: &[Column; TERM_SYMBOLS],
    before: Before,
    row: &[Term],
    symbol: u16,
)
    requires { WellFormed positions term_symbols row.now × RoomFor kept.old (columns_gained columns.now (all_in_row before.row (new_pairs symbol [] row.now))) }
    ensures { kept.new ≡ kept.old ++ columns_gained columns.now (all_in_row before.row (new_pairs symbol [] row.now)) }
{
    for j in 0..row.len() {
        let t = row[j];
        if symbol <= t.symbol() {
            add_pairs_before(kept, columns, before, row, j);
        }
    }
}

// The entries of all pairs whose second term has the symbol or a later one: from symbol 0 on those of all pairs, from the newest symbol on
// those that a step made.
pub fn gain(kept: &mut KeptScores, columns: &[Column; TERM_SYMBOLS], rows: Rows, symbol: u16)
    requires { Ready term_symbols (rows_terms rows) × RoomFor kept.old (columns_gained columns.now (new_pairs_from symbol 0 (rows_terms rows))) }
    ensures { kept.new ≡ kept.old ++ columns_gained columns.now (new_pairs_from symbol 0 (rows_terms rows)) }
{
    let mut masks = [0u16; MAX_ROWS];
    for (i, row) in rows.as_slice().iter().enumerate() {
        let before = Before { row: i, masks };
        gain_row(kept, columns, before, row.as_slice(), symbol);
        masks[i] = u16::MAX;
    }
}
