// Document 01, "Matrix record" and "Why a record was declined": the matrix record, and no bytes, as `layout_rules` has them. Rests on
// `layout_records` and `refusals`.
#![tactic(auto)]

ghost use Rattle.std.specs.Prelude.{◌≡◌, ◌++◌, ◌+◌, ◌^◌, ◌≤◌, ◌<◌, length, drop};
ghost use Rattle.limits.specs.Size.{SizeLimits};
ghost use Rattle.layout_rules.specs.Matrix.{rows, columns, matrix_refusal, coefficient_at, coefficient_place};
ghost use Rattle.layout_matrix.specs.Head.{matrix_head};
ghost use Rattle.refusals.specs.Numbers.{number_of};

use layout_records::little_endian::word_at;
use limits::{MAX_COLUMNS, MAX_ROWS};
use refusals::Refusal;

const MATRIX_KIND: u16 = 1;

// "134 bytes always suffice."
pub const LONGEST_RECORD: usize = 6 + 2 * MAX_ROWS * MAX_COLUMNS;

// The coefficients stand behind n, 2 bytes each.
pub fn coefficient_place(index: usize) -> usize
    requires { coefficient_place index < 2 ^ 64 }
    ensures { result ≡ coefficient_place index }
{
    6 + 2 * index
}

// m; 0 of no bytes.
pub fn row_count(bytes: &[u8]) -> u8
    ensures { result ≡ rows bytes.now }
{
    bytes.get(4).copied().unwrap_or(0)
}

// n; 0 of no bytes. Two functions for two fields, as document 01 names them.
pub fn column_count(bytes: &[u8]) -> u8
    ensures { result ≡ columns bytes.now }
{
    bytes.get(5).copied().unwrap_or(0)
}

// The first of the refusals 1 to 5 that applies. No bytes are within the limits.
#[tactic(auto, unfolding(layout_rules::specs::Matrix::matrix_refusal))]
pub fn matrix_refusal(bytes: &[u8]) -> Result<(), Refusal>
    ensures { number_of result ≡ matrix_refusal bytes.now }
{
    if bytes.is_empty() {
        return Ok(());
    }
    if bytes.len() < 6 {
        return Err(Refusal::FewMatrixBytes);
    }
    if word_at(bytes, 0) as usize != bytes.len() {
        return Err(Refusal::MatrixLengthField);
    }
    if word_at(bytes, 2) != MATRIX_KIND {
        return Err(Refusal::MatrixKind);
    }
    let m = row_count(bytes);
    let n = column_count(bytes);
    if limits::size_outside(m, n) {
        return Err(Refusal::MatrixSize);
    }
    if bytes.len() != coefficient_place((m as usize) * (n as usize)) {
        return Err(Refusal::MatrixLength);
    }
    Ok(())
}

// The coefficient of an index, in the record's order.
pub fn coefficient(bytes: &[u8], index: usize) -> i16
    requires { coefficient_place index + 1 < length bytes.now }
    ensures { result ≡ coefficient_at bytes.now index }
{
    word_at(bytes, coefficient_place(index)).cast_signed()
}

// What stands before the coefficients: length, kind, m and n. What stands behind stays as it was.
pub fn write_matrix_head(m: u8, n: u8, buffer: &mut [u8])
    requires size_limits { SizeLimits m n }
    requires coefficient_place_in_bounds { coefficient_place 0 ≤ length buffer.old }
    ensures { buffer.new ≡ matrix_head m n ++ drop (coefficient_place 0) buffer.old }
{
    let size = coefficient_place((m as usize) * (n as usize));
    let head = [size as u8, 0, MATRIX_KIND as u8, 0, m, n];
    byte_slices::copy(&head, buffer);
}
