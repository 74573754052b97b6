// Document 01, "Matrix Market files": what read_matrix_market answers. The definitions stand in specs/: lines, their forms, the record of a
// file, the tests in their order, and which texts are a file of which matrix; the laws stand in proofs/. Rests on `refusals`,
// `layout_rules` and `text`, and for its laws on `bank_rules`.
#![tactic(auto)]

ghost use Rattle.std.specs.Prelude.{◌≡◌};
ghost use Rattle.market_rules.specs.Answer.{answer_of};

use refusals::Refused;

// What read_matrix_market returns: a refusal and its place, or the bytes written. No Result: document 01's calls answer so, and
// market_answer is an equation of it.
#[derive(Clone, Copy)]
pub struct MarketAnswer {
    pub refusal: u8,
    pub place: usize,
    pub written: usize,
}

impl From<Result<usize, Refused>> for MarketAnswer {
    ghost from_gives = { λ written answer. answer ≡ answer_of written };

    fn from(written: Result<usize, Refused>) -> MarketAnswer {
        match written {
            Ok(count) => MarketAnswer {
                refusal: 0,
                place: 0,
                written: count,
            },
            Err(refused) => MarketAnswer {
                refusal: refused.refusal.number(),
                place: refused.place,
                written: 0,
            },
        }
    }
}
