// Document 01, "Row sums": the operations and outputs of the remaining rows, in the shallowest order, as `sum_rules` has them. Rests on
// `compile_joins`, `compile_order`, `compile_lists` and `board_tables`.
#![tactic(auto)]

ghost use Rattle.std.specs.Prelude.{◌≡◌, ◌++◌, ◌+◌, ◌≤◌, ◌<◌, pred, length};
ghost use Rattle.limits.specs.Limits.{max_rows, max_columns, max_operations};
ghost use Rattle.board_rules.specs.Table.{HoldsDepths};
ghost use Rattle.elimination_rows.specs.State.{row_terms, rows_terms};
ghost use Rattle.elimination_rules.specs.Rows.{plain_count, EachRow};
ghost use Rattle.compile_lists.specs.Lists.{operations_list, outputs_list};
ghost use Rattle.sum_rules.specs.Shallowest.{order_of_operands, depths_of, sum_of, sum_operations, sum_outputs};
ghost use Rattle.sum_rules.specs.SumDepth.{EachTerm};

use compile_joins::{Operands, join_operation, joined_term, term_output, zero_output};
use compile_lists::operations::Operations;
use compile_lists::outputs::{Outputs, no_outputs};
use compile_order::{in_order, place};
use elimination_rows::row::Row;
use elimination_rows::rows::Rows;
use layout_rules::Output;
use limits::{MAX_SYMBOLS, MAX_TERMS};

// A row's joins, behind the operations so far, the depth of each, and the row's output; n inputs stand before the operations.
fn sum_row(
    operations: &mut Operations,
    row: Row,
    n: usize,
    depths: &mut [u16; MAX_SYMBOLS],
) -> Output
    requires n_le_max_columns { (n ≤ max_columns) × (length (operations_list operations.old) + pred (length (row_terms row)) ≤ max_operations) }
    requires each_term { EachTerm (λ t. t.symbol < n + length (operations_list operations.old)) (row_terms row) }
    requires holds_depths { HoldsDepths n (operations_list operations.old) depths.old }
    ensures operations_value { operations_list operations.new ≡ operations_list operations.old ++ (sum_of order_of_operands (depths_of n (operations_list operations.old)) (row_terms row)).operations }
    ensures output_value { result ≡ (sum_of order_of_operands (depths_of n (operations_list operations.old)) (row_terms row)).output }
    ensures holds_depths_2 { HoldsDepths n (operations_list operations.new) depths.new }
{
    let mut terms = in_order(row, depths);
    for at in MAX_TERMS - row.count()..MAX_TERMS - 1 {
        let Operands { first, second } = Operands::of(terms[at], terms[at + 1]);
        let o = join_operation(first, second);
        let count = operations.count();
        let symbol = n + count;
        depths[symbol] = board_tables::operation_depth(depths, o);
        operations.push(o);
        place(
            &mut terms[at + 1..],
            joined_term(symbol as u16, first),
            depths,
        );
    }
    if row.count() == 0 {
        zero_output()
    } else {
        term_output(terms[MAX_TERMS - 1])
    }
}

// "The plain count is the sum over these rows of (terms − 1), a row without terms giving 0."
pub fn plain_count(rows: Rows) -> usize
    requires { plain_count (rows_terms rows) ≤ max_operations }
    ensures { result ≡ plain_count (rows_terms rows) }
{
    let mut plain = 0;
    for row in rows.as_slice() {
        plain += row.count().saturating_sub(1);
    }
    plain
}

// The joins of the rows, one row after another, behind the operations so far, and the rows' outputs.
pub fn sum_rows(
    operations: &mut Operations,
    rows: Rows,
    n: usize,
    depths: &mut [u16; MAX_SYMBOLS],
) -> Outputs
    requires n_le_max_columns { (n ≤ max_columns) × (length (rows_terms rows) ≤ max_rows) × (length (operations_list operations.old) + plain_count (rows_terms rows) ≤ max_operations) }
    requires each_row { EachRow (EachTerm (λ t. t.symbol < n + length (operations_list operations.old))) (rows_terms rows) }
    requires holds_depths { HoldsDepths n (operations_list operations.old) depths.old }
    ensures operations_value { operations_list operations.new ≡ operations_list operations.old ++ sum_operations order_of_operands (depths_of n (operations_list operations.old)) (rows_terms rows) }
    ensures outputs_value { outputs_list result ≡ sum_outputs order_of_operands (depths_of n (operations_list operations.old)) (rows_terms rows) }
{
    let mut outputs = no_outputs();
    for row in rows.as_slice() {
        outputs.push(sum_row(operations, *row, n, depths));
    }
    outputs
}
