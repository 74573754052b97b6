// Document 01, "Reading, checking, running" and "Why a record was declined": checking a netlist against a matrix, refusals 1 to 5,
// 7 to 12, 13, 14, as `netlist_rules` has it. Rests on `netlist_read`, `layout_matrix`, `arrays` and `refusals`.
#![tactic(auto)]

ghost use Rattle.std.specs.Prelude.{◌≡◌, ◌*◌, ◌≤◌, ◌<◌};
ghost use Rattle.limits.specs.Limits.{max_rows, max_columns, max_symbols};
ghost use Rattle.layout_rules.specs.Matrix.{matrix_refusal, coefficients_from};
ghost use Rattle.board_rules.specs.Table.{output_row};
ghost use Rattle.netlist_rules.specs.Check.{checked, same_row, check_answer};
ghost use Rattle.netlist_rules.specs.Exact.{SameSize};
ghost use Rattle.netlist_read.specs.Tables.{NetlistHeld};
ghost use Rattle.netlist_check.specs.Compared.{RowReady, rows_matched};
ghost use Rattle.refusals.specs.Numbers.{refusal_in, place_in};

use arrays::filled;
use board_rules::FORMS_LENGTH;
use layout_rules::Output;
use limits::{MAX_COLUMNS, MAX_SYMBOLS};
use netlist_read::accepted::Netlist;
use netlist_rules::CheckAnswer;
use refusals::{Refusal, Refused};

// Whether an output's coefficients are those of the matrix's row that begins at an index.
fn same_row(matrix: &[u8], index: usize, o: Output, n: usize, forms: &[i64; FORMS_LENGTH]) -> bool
    requires n_le_max_columns { (n ≤ max_columns) × ((index ≤ max_rows * max_columns) × (o.symbol < max_symbols)) }
    requires row_ready { RowReady matrix.now index n forms.now o }
    ensures { result ≡ same_row (output_row forms.now n o) (coefficients_from matrix.now index n) }
{
    let symbol = o.symbol as usize;
    // By index: the coefficients stand in two tables, one behind bytes.
    for j in 0..n {
        let c = forms[symbol * MAX_COLUMNS + j];
        let x = board_tables::output_value(o.sign, c, o.shift);
        let y = layout_matrix::coefficient(matrix, index + j) as i64;
        if x != y {
            return false;
        }
    }
    true
}

// The lowest row whose coefficients differ: 14 at that row.
fn rows_answer(matrix: &[u8], netlist: &Netlist, forms: &[i64; FORMS_LENGTH]) -> Result<(), Refused>
    requires netlist_held { NetlistHeld netlist.now.bytes.now forms.now }
    requires matrix_value { matrix_refusal matrix.now ≡ 0 }
    requires same_size { SameSize matrix.now netlist.now.head }
    ensures { checked (refusal_in result) (place_in result) ≡ rows_matched matrix.now netlist.now.bytes.now }
{
    let n = netlist.n();
    for i in 0..netlist.m() {
        if !same_row(matrix, i * n, netlist.output(i), n, forms) {
            return Err(Refusal::RowDiffers.at(i));
        }
    }
    Ok(())
}

// Why a netlist does not compute a matrix, for any bytes.
fn compared(matrix: &[u8], netlist: &[u8]) -> Result<(), Refused>
    ensures { checked (refusal_in result) (place_in result) ≡ check_answer matrix.now netlist.now }
{
    if let Err(refusal) = layout_matrix::matrix_refusal(matrix) {
        return Err(refusal.at(0));
    }
    let mut forms: [i64; FORMS_LENGTH] = filled(0);
    let mut depths: [u16; MAX_SYMBOLS] = filled(0);
    let read = netlist_read::open_with(netlist, &mut forms, &mut depths)?;
    if layout_matrix::row_count(matrix) != read.head.m
        || layout_matrix::column_count(matrix) != read.head.n
    {
        return Err(Refusal::SizesDiffer.at(0));
    }
    rows_answer(matrix, &read, &forms)
}

// Whether a netlist computes a matrix, for any bytes.
pub fn check(matrix: &[u8], netlist: &[u8]) -> CheckAnswer
    ensures { result ≡ check_answer matrix.now netlist.now }
{
    compared(matrix, netlist).into()
}
