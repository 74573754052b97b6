// Document 01, "Elimination": the pick, from the kept scores. Rests on `elimination_order`.
ghost use Rattle.std.specs.Prelude.{◌≡◌, true, false};
ghost use Rattle.elimination_rules.specs.Elimination.{better, no_pairs};
ghost use Rattle.elimination_rules.specs.Rank.{key_divisor, lower_rank};
ghost use Rattle.kept_rules.specs.Kept.{best_entry};
ghost use Rattle.elimination_kept.specs.Table.{entry_of, Fits, AllFit, scored_of, Ranked};

use crate::KeptScores;
use elimination_order::rank;
use limits::MAX_SYMBOLS;

// A divisor's key, its score, and its rank in the order among equal scores.
#[derive(Clone, Copy)]
pub struct Best {
    pub key: u32,
    pub score: u8,
    rank: u64,
}

// No pairs at all count as a highest score below 2: the rules have no_pairs for that, so there is no case of none to tell apart.
#[tactic(auto, unfolding(elimination_rules::specs::Elimination::no_pairs, elimination_rules::specs::Rank::key_divisor))]
fn no_pairs(depths: &[u16; MAX_SYMBOLS]) -> Best
    ensures { (scored_of result ≡ no_pairs) × Ranked depths.now result }
{
    Best {
        key: 0,
        score: 0,
        rank: rank(depths, 0),
    }
}

// The higher score, and of equal scores the lower rank.
fn better_of(depths: &[u16; MAX_SYMBOLS], best: Best, key: u32, score: u8) -> Best
    requires { Fits (key_divisor key) × Ranked depths.now best }
    ensures result_value { scored_of result ≡ (elim (better (lower_rank depths.now) (entry_of key score) (scored_of best)) [ true ↦ entry_of key score | false ↦ scored_of best ]) }
    ensures ranked { Ranked depths.now result }
{
    if score < best.score {
        return best;
    }
    let rank = rank(depths, key);
    if score == best.score && best.rank <= rank {
        return best;
    }
    Best { key, score, rank }
}

impl KeptScores {
    // The best of the entries.
    pub fn pick(&self, depths: &[u16; MAX_SYMBOLS]) -> Best
        requires { AllFit self.now }
        ensures { scored_of result ≡ best_entry (lower_rank depths.now) no_pairs self.now }
    {
        let mut best = no_pairs(depths);
        for i in 0..self.count {
            best = better_of(depths, best, self.keys[i], self.scores[i]);
        }
        best
    }
}
