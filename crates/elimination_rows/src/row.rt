// Document 01, "Digits and terms": a row of terms, by value. Rests on `limits`, `lists`, `term` and `digits`.
ghost use Rattle.std.specs.Prelude.{◌≡◌, [], ◌∷◌, ◌++◌, ◌-◌, ◌<◌, ◌≤◌, length};
ghost use Rattle.limits.specs.Limits.{positions, max_digits, max_terms, term_symbols};
ghost use Rattle.digits.specs.Digits.{digits};
ghost use Rattle.elimination_rules.specs.Rows.{column_terms};
ghost use Rattle.elimination_rows.specs.State.{row_terms};

use limits::MAX_TERMS;
use lists::List;
use term::Term;

// At most MAX_TERMS terms: the nonzero digits of the columns.
pub type Row = List<Term, MAX_TERMS>;

pub fn empty_row() -> Row
    ensures { row_terms result ≡ [] }
{
    List::empty(Term::new(0, 0, false))
}

// The term of a digit, if it is not 0.
fn add_digit(row: &mut Row, column: u16, position: usize, digit: i8)
    requires { (column < term_symbols) × (position < positions) × (length (row_terms row.old ++ column_terms column position (digit ∷ [])) ≤ max_terms) }
    ensures { row_terms row.new ≡ row_terms row.old ++ column_terms column position (digit ∷ []) }
{
    if digit != 0 {
        row.push(Term::new(column, position as u8, digit < 0));
    }
}

// The terms of a coefficient's digits in its column; at most half of them are not 0.
pub fn add_column(row: &mut Row, column: u16, z: i16)
    requires { (column < term_symbols) × (length (row_terms row.old) ≤ max_terms - max_digits) }
    ensures { row_terms row.new ≡ row_terms row.old ++ column_terms column 0 (digits positions z) }
{
    for (position, digit) in digits::digits(z).iter().enumerate() {
        add_digit(row, column, position, *digit);
    }
}
