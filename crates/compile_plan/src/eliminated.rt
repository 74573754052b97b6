// Document 01, "Elimination", with kept scores as request A3 has them. Rests on `elimination_state`, `elimination_kept`, `board_tables` and
// `compile_joins`.
ghost use Rattle.std.specs.Prelude.{◌≡◌, [], ◌≤◌};
ghost use Rattle.limits.specs.Limits.{max_columns, max_operations};
ghost use Rattle.elimination_rows.specs.State.{rows_terms, Ready};
ghost use Rattle.elimination_rules.specs.Rows.{plain_count};
ghost use Rattle.elimination_rules.specs.Elimination.{shallowest_first, eliminate};
ghost use Rattle.kept_rules.specs.Kept.{Kept};
ghost use Rattle.compile_plan.specs.Planned.{EliminatedOf};

use arrays::filled;
use compile_joins::divisor_operation;
use compile_lists::operations::{Operations, no_operations};
use elimination_columns::blank_columns;
use elimination_kept::KeptScores;
use elimination_order::divisor_of_key;
use elimination_rows::rows::Rows;
use elimination_state::RowsState;
use limits::MAX_SYMBOLS;

// One operation per divisor, the depths of the inputs and of these, the number of pairs replaced, and the remaining rows.
#[derive(Clone, Copy)]
pub struct Eliminated {
    pub operations: Operations,
    pub depths: [u16; MAX_SYMBOLS],
    pub replacements: usize,
    pub rows: Rows,
}

// Steps until the highest score is below 2, or so many are made. The scores of all divisors are kept in the lent table, the depths of the
// symbols as divisors are made.
pub fn eliminate_rows(rows: Rows, n: u16, most: usize, kept: &mut KeptScores) -> Eliminated
    requires { Ready n (rows_terms rows) × (n ≤ max_columns) × (plain_count (rows_terms rows) ≤ max_operations) }
    ensures eliminated_of { EliminatedOf n (eliminate (shallowest_first n) most n [] (rows_terms rows)) result }
    ensures kept { Kept (rows_terms result.rows) kept.new }
{
    let mut columns = blank_columns();
    let mut state = RowsState::start(rows, n, kept, &mut columns);
    let mut after = columns;
    let mut operations = no_operations();
    let mut depths: [u16; MAX_SYMBOLS] = filled(0);
    let mut replacements: usize = 0;
    for _ in 0..most {
        let best = kept.pick(&depths);
        if best.score < 2 {
            break;
        }
        let divisor = divisor_of_key(best.key);
        let operation = divisor_operation(divisor);
        depths[state.symbol as usize] = board_tables::operation_depth(&depths, operation);
        operations.push(operation);
        replacements += best.score as usize;
        state = state.step(divisor, kept, &mut columns, &mut after);
    }
    Eliminated {
        operations,
        depths,
        replacements,
        rows: state.rows,
    }
}
