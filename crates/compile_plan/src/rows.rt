// Document 01, "Digits and terms": the rows of a matrix. Rests on `elimination_rows` and `layout_matrix`.
ghost use Rattle.std.specs.Prelude.{◌≡◌, ℕ, ◌+◌, ◌*◌, ◌≤◌, ◌<◌, length};
ghost use Rattle.limits.specs.Limits.{max_rows, max_columns, positions};
ghost use Rattle.layout_rules.specs.Matrix.{matrix_refusal, coefficient_place, coefficients_from, rows_from, matrix};
ghost use Rattle.elimination_rows.specs.State.{row_terms, rows_terms};
ghost use Rattle.elimination_rules.specs.Rows.{row_from, matrix_rows};

use elimination_rows::row::{Row, add_column, empty_row};
use elimination_rows::rows::{Rows, empty_rows};

// The row of n coefficients from an index on.
fn matrix_row(bytes: &[u8], index: usize, n: usize) -> Row
    requires { (n ≤ max_columns) × ((j : ℕ) → j < n → coefficient_place (index + j) + 1 < length bytes.now) }
    ensures { row_terms result ≡ row_from positions 0 (coefficients_from bytes.now index n) }
{
    let mut row = empty_row();
    for j in 0..n {
        let z = layout_matrix::coefficient(bytes, index + j);
        add_column(&mut row, j as u16, z);
    }
    row
}

// The first m rows, of n columns.
fn rows_of_size(bytes: &[u8], m: usize, n: usize) -> Rows
    requires { (m ≤ max_rows) × (n ≤ max_columns) × ((index : ℕ) → index < m * n → coefficient_place index + 1 < length bytes.now) }
    ensures { rows_terms result ≡ matrix_rows positions (rows_from bytes.now n 0 m) }
{
    let mut rows = empty_rows();
    for i in 0..m {
        rows.push(matrix_row(bytes, i * n, n));
    }
    rows
}

// The matrix's rows, of bytes that are not declined.
pub fn matrix_rows(bytes: &[u8]) -> Rows
    requires { matrix_refusal bytes.now ≡ 0 }
    ensures { rows_terms result ≡ matrix_rows positions (matrix bytes.now) }
{
    let m = layout_matrix::row_count(bytes) as usize;
    let n = layout_matrix::column_count(bytes) as usize;
    rows_of_size(bytes, m, n)
}
