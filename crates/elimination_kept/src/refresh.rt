// Request A3: the entries after a step. Rests on `elimination_order` and `elimination_masks`.
// The columns before and after a step stay two parameters: in a struct of two references each clause would have to name its entry.
ghost use Rattle.std.specs.Prelude.{◌≡◌};
ghost use Rattle.elimination_rules.specs.Rank.{key_divisor};
ghost use Rattle.kept_rules.specs.Kept.{refreshed_entry, refreshed};
ghost use Rattle.elimination_masks.specs.Columns.{columns_score, columns_differ};
ghost use Rattle.elimination_kept.specs.Table.{entry_of, Fits, AllFit, shares_symbol, SameBut};

use crate::KeptScores;
use elimination_masks::columns::{Column, differ, score};
use elimination_order::divisor_of_key;
use elimination_rules::Divisor;
use limits::TERM_SYMBOLS;

// Whether a divisor has one of two symbols.
fn shares(d: Divisor, a: u16, b: u16) -> bool
    ensures { result ≡ shares_symbol a b d }
{
    d.a == a || d.a == b || d.b == a || d.b == b
}

// Counted anew only where the occurrences are others after the step.
fn score_after(
    d: Divisor,
    before: u8,
    columns: &[Column; TERM_SYMBOLS],
    after: &[Column; TERM_SYMBOLS],
) -> u8
    requires { Fits d }
    ensures { result ≡ (refreshed_entry (columns_differ columns.now after.now) (columns_score after.now) (record { divisor = d; score = before })).score }
{
    let a = d.a as usize;
    let b = d.b as usize;
    let x = after[a];
    let y = after[b];
    if differ(columns[a], columns[b], x, y, d) {
        return score(x, y, d);
    }
    before
}

// The score after a step that took terms of the symbols a and b. What has neither symbol has the same columns as before.
fn refreshed_score(
    key: u32,
    before: u8,
    columns: &[Column; TERM_SYMBOLS],
    after: &[Column; TERM_SYMBOLS],
    a: u16,
    b: u16,
) -> u8
    requires { Fits (key_divisor key) × SameBut a b columns.now after.now }
    ensures { result ≡ (refreshed_entry (columns_differ columns.now after.now) (columns_score after.now) (entry_of key before)).score }
{
    let d = divisor_of_key(key);
    if shares(d, a, b) {
        return score_after(d, before, columns, after);
    }
    before
}

impl KeptScores {
    // Goes over the entries once: each is kept with its score after the step, unless it has no occurrence left.
    pub fn refresh(
        &mut self,
        columns: &[Column; TERM_SYMBOLS],
        after: &[Column; TERM_SYMBOLS],
        a: u16,
        b: u16,
    )
        requires { AllFit self.old × SameBut a b columns.now after.now }
        ensures { self.new ≡ refreshed (columns_differ columns.now after.now) (columns_score after.now) self.old }
    {
        let kept = self.count;
        let mut left = 0;
        for i in 0..kept {
            let key = self.keys[i];
            let score = refreshed_score(key, self.scores[i], columns, after, a, b);
            self.keys[left] = key;
            self.scores[left] = score;
            if score != 0 {
                left += 1;
            }
        }
        self.count = left;
    }
}
