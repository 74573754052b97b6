// Request A3: the rows state, and its step, which keeps the columns of the rows and the scores of all divisors along. Both are lent to it.
// Rests on `elimination_columns`, `elimination_kept`, `elimination_gained` and `elimination_step`.
#![tactic(auto)]

ghost use Rattle.std.specs.Prelude.{◌≡◌, ◌+◌, ◌<◌, ◌≤◌};
ghost use Rattle.limits.specs.Limits.{term_symbols};
ghost use Rattle.elimination_rules.specs.Elimination.{rows_after};
ghost use Rattle.elimination_rows.specs.State.{rows_terms, Ready};
ghost use Rattle.elimination_columns.specs.Entered.{blank_columns};
ghost use Rattle.elimination_state.specs.Running.{Running, StepOf};

use elimination_columns::{Columns, enter_rows, enter_step};
use elimination_gained::gain;
use elimination_kept::KeptScores;
use elimination_masks::columns::{made, taken, without};
use elimination_rows::rows::Rows;
use elimination_rules::Divisor;
use elimination_step::rows_after;

// The rows, and the symbol that the next divisor gets.
#[derive(Clone, Copy)]
pub struct RowsState {
    pub rows: Rows,
    pub symbol: u16,
}

impl RowsState {
    // The first rows of n inputs: their columns, and the scores of all their divisors.
    pub fn start(rows: Rows, n: u16, kept: &mut KeptScores, columns: &mut Columns) -> RowsState
        requires { Ready n (rows_terms rows) × (n ≤ term_symbols) × (columns.old ≡ blank_columns) }
        ensures { (rows_terms result.rows ≡ rows_terms rows) × (result.symbol ≡ n) × Running (rows_terms rows) kept.new columns.new columns.new }
    {
        enter_rows(columns, rows);
        kept.clear();
        gain(kept, columns, rows, 0);
        RowsState { rows, symbol: n }
    }

    // The step of a divisor. The columns before it and after it say which entries are counted anew; then the entries of the new symbol are
    // added, and both tables of columns are those of the new rows.
    pub fn step(
        self,
        d: Divisor,
        kept: &mut KeptScores,
        columns: &mut Columns,
        after: &mut Columns,
    ) -> RowsState
        requires { Ready self.symbol (rows_terms self.rows) × (self.symbol < term_symbols) × StepOf self.symbol d × Running (rows_terms self.rows) kept.old columns.old after.old }
        ensures { (rows_terms result.rows ≡ rows_after self.symbol d (rows_terms self.rows)) × (result.symbol ≡ self.symbol + 1) × Running (rows_terms result.rows) kept.new columns.new after.new }
    {
        let a = d.a as usize;
        let b = d.b as usize;
        let symbol = self.symbol as usize;
        let x = columns[a];
        let masks = taken(x, columns[b], d);
        let x_after = without(x, masks, d.ea);
        after[a] = x_after;
        let y_after = without(after[b], masks, d.eb);
        after[b] = y_after;
        kept.refresh(columns, after, d.a, d.b);
        let new = made(x, masks, d.ea);
        after[symbol] = new;
        enter_step(columns, a, x_after, b, y_after, symbol, new);
        let rows = rows_after(self.symbol, d, masks, self.rows);
        gain(kept, columns, rows, self.symbol);
        RowsState {
            rows,
            symbol: self.symbol + 1,
        }
    }
}
