// Request A3: the kept scores of all divisors that have an occurrence, in a table that is lent. Rests on `elimination_order`,
// `elimination_rows` and `elimination_masks`.
#![tactic(auto)]

pub mod pick; // pick.rt: the pick
pub mod refresh; // refresh.rt: the entries after a step

ghost use Rattle.std.specs.Prelude.{◌≡◌, [], ◌∷◌, ◌++◌, ◌<◌, length};
ghost use Rattle.limits.specs.Limits.{max_pairs};
ghost use Rattle.elimination_kept.specs.Table.{entry_of};

use limits::MAX_PAIRS;
use std::marker::Model;

// The table: the first keys and scores, in no order. They stay two arrays, since `table_of` and the stored sums are of two.
#[derive(Drop)]
pub struct KeptScores {
    pub keys: [u32; MAX_PAIRS],
    pub scores: [u8; MAX_PAIRS],
    pub count: usize,
}

impl Model for KeptScores {
    ghost use Rattle.std.specs.Prelude.{List};
    ghost use Rattle.elimination_rules.specs.Elimination.{Scored};
    ghost use Rattle.elimination_kept.specs.Table.{table_of, Room};

    ghost Value = { List Scored };

    ghost view = { λ s. table_of s.keys s.scores s.count };

    ghost invariant = { λ s. Room s.keys s.scores s.count };
}

impl KeptScores {
    #[tactic(auto, unfolding(crate::specs::Table::entries_of))]
    pub fn empty() -> Self
        ensures { result ≡ [] }
    {
        KeptScores {
            keys: [0; MAX_PAIRS],
            scores: [0; MAX_PAIRS],
            count: 0,
        }
    }

    #[tactic(auto, unfolding(crate::specs::Table::entries_of))]
    pub fn clear(&mut self)
        ensures { self.new ≡ [] }
    {
        self.count = 0;
    }

    // One entry more.
    pub fn push(&mut self, key: u32, score: u8)
        requires { length self.old < max_pairs }
        ensures { self.new ≡ self.old ++ (entry_of key score ∷ []) }
    {
        self.keys[self.count] = key;
        self.scores[self.count] = score;
        self.count += 1;
    }
}
