// Document 01, "Elimination" and "Netlist and board machine": the operations and outputs of a matrix, without widths, and what
// compile counts. Rests on `elimination_state`, `compile_sums` and `layout_matrix`.
#![tactic(auto)]

pub mod rows; // rows.rt: the rows of a matrix
pub mod eliminated; // eliminated.rt: elimination

ghost use Rattle.std.specs.Prelude.{◌≡◌};
ghost use Rattle.layout_rules.specs.Matrix.{matrix_refusal};
ghost use Rattle.compile_plan.specs.Planned.{PlannedOf};

use compile_lists::operations::Operations;
use compile_lists::outputs::Outputs;
use elimination_kept::KeptScores;

#[derive(Clone, Copy)]
pub struct Planned {
    pub operations: Operations,
    pub outputs: Outputs,
    pub plain: usize,
    pub divisors: usize,
    pub replacements: usize,
}

// Of bytes that are not declined: one clause over one slice, which a type would have to be made for at each of four calls.
pub fn plan(matrix: &[u8]) -> Planned
    requires { matrix_refusal matrix.now ≡ 0 }
    ensures { PlannedOf matrix.now result }
{
    let n = layout_matrix::column_count(matrix) as usize;
    let first = rows::matrix_rows(matrix);
    let plain = compile_sums::plain_count(first);
    let mut kept = KeptScores::empty();
    let end = eliminated::eliminate_rows(first, n as u16, plain, &mut kept);
    let divisors = end.operations.count();
    let mut operations = end.operations;
    let mut depths = end.depths;
    let outputs = compile_sums::sum_rows(&mut operations, end.rows, n, &mut depths);
    Planned {
        operations,
        outputs,
        plain,
        divisors,
        replacements: end.replacements,
    }
}
