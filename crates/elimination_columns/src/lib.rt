// Document 01, "Elimination": the columns of the rows, as masks. Rests on `elimination_masks` and `elimination_rows`.
// Symbols, rows and exponents are bounded in clauses: they are plain numbers, and a joined term's symbol may lie above.
#![tactic(auto)]

ghost use Rattle.std.specs.Prelude.{◌≡◌, ◌<◌, length, set};
ghost use Rattle.limits.specs.Limits.{max_rows, positions, term_symbols};
ghost use Rattle.elimination_masks.specs.Columns.{ColumnsOf};
ghost use Rattle.elimination_rows.specs.State.{rows_terms, Ready};
ghost use Rattle.elimination_columns.specs.Entered.{TermsWithin, mask_place, blank_columns, entered_column, entered_term, entered_terms};

use elimination_masks::columns::Column;
use elimination_rows::rows::Rows;
use limits::{MAX_ROWS, TERM_SYMBOLS};
use term::Term;

// A column for each symbol of a term.
pub type Columns = [Column; TERM_SYMBOLS];

// No terms.
#[tactic(auto, unfolding(crate::specs::Entered::blank_columns))]
pub fn blank_columns() -> Columns
    ensures { result ≡ blank_columns }
{
    let none = [0u16; 2 * MAX_ROWS];
    [none; TERM_SYMBOLS]
}

// The columns after a step: those of its divisor's symbols, a and b, and that of the new symbol. Three pairs of one call, so no struct.
pub fn enter_step(
    columns: &mut Columns,
    a: usize,
    x: Column,
    b: usize,
    y: Column,
    symbol: usize,
    made: Column,
)
    requires { (a < term_symbols) × (b < term_symbols) × (symbol < term_symbols) }
    ensures { columns.new ≡ set (set (set columns.old a x) b y) symbol made }
{
    columns[a] = x;
    columns[b] = y;
    columns[symbol] = made;
}

// Where the mask of a term of a row stands in its symbol's column.
fn mask_place(i: usize, t: Term) -> usize
    requires { i < max_rows }
    ensures { result ≡ mask_place t.negative i }
{
    if t.negative() { MAX_ROWS + i } else { i }
}

// A symbol's column with one more of its terms.
#[tactic(auto, using(crate::proofs::Entering::place_below, bits::proofs::BitLaws::one_shifted), unfolding(crate::specs::Entered::entered_column))]
fn with_term(column: Column, i: usize, t: Term) -> Column
    requires { (i < max_rows) × (t.exponent < positions) }
    ensures { result ≡ entered_column i column t }
{
    let at = mask_place(i, t);
    let mut out = column;
    out[at] = out[at] | (1u16 << t.exponent());
    out
}

#[tactic(auto, unfolding(crate::specs::Entered::entered_term))]
fn enter_term(columns: &mut Columns, i: usize, t: Term)
    requires { (i < max_rows) × (t.symbol < term_symbols) × (t.exponent < positions) }
    ensures { columns.new ≡ entered_term i columns.old t }
{
    let symbol = t.symbol() as usize;
    columns[symbol] = with_term(columns[symbol], i, t);
}

// The terms of a row are entered one by one, from the last on.
fn enter_row(columns: &mut Columns, i: usize, row: &[Term])
    requires { (i < max_rows) × TermsWithin row.now }
    ensures { columns.new ≡ entered_terms i columns.old row.now }
{
    for t in row.iter().rev() {
        enter_term(columns, i, *t);
    }
}

// All rows are entered in columns without terms.
pub fn enter_rows(columns: &mut Columns, rows: Rows)
    requires { Ready term_symbols (rows_terms rows) × (columns.old ≡ blank_columns) }
    ensures { ColumnsOf (rows_terms rows) columns.new × (length columns.new ≡ term_symbols) }
{
    for (i, row) in rows.as_slice().iter().enumerate() {
        enter_row(columns, i, row.as_slice());
    }
}
