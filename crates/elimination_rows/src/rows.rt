// Document 01, "Elimination": the rows, by value. Rests on `limits`, `lists` and `row`.
ghost use Rattle.std.specs.Prelude.{◌≡◌, []};
ghost use Rattle.elimination_rows.specs.State.{rows_terms};

use crate::row::{Row, empty_row};
use limits::MAX_ROWS;
use lists::List;

// At most MAX_ROWS rows.
pub type Rows = List<Row, MAX_ROWS>;

pub fn empty_rows() -> Rows
    ensures { rows_terms result ≡ [] }
{
    List::empty(empty_row())
}
