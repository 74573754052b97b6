// Document 01, "Elimination": the divisor of two terms, its key, which is one number, and its place in the order among equal scores. Rests on
// `term` and `elimination_rules`.
#![tactic(auto)]

ghost use Rattle.std.specs.Prelude.{◌≡◌, ◌<◌};
ghost use Rattle.limits.specs.Limits.{max_symbols};
ghost use Rattle.elimination_rules.specs.Rows.{Precedes};
ghost use Rattle.elimination_rules.specs.Divisors.{co_divisor, divisor_of};
ghost use Rattle.elimination_rules.specs.Rank.{symbol_room, exponent_room, divisor_key, key_divisor, divisor_rank};

use elimination_rules::Divisor;
use limits::MAX_SYMBOLS;
use term::Term;

// A symbol and an exponent have room for so many values.
const SYMBOL_ROOM: u32 = 512;

const EXPONENT_ROOM: u32 = 32;

const KEY_ROOM: u32 = SYMBOL_ROOM * SYMBOL_ROOM * EXPONENT_ROOM * EXPONENT_ROOM * 2;

// The smaller exponent.
pub fn co_divisor(t: Term, u: Term) -> u8
    ensures { result ≡ co_divisor (record { first = t; second = u }) }
{
    t.exponent().min(u.exponent())
}

// The divisor of two terms of a row, the first of which stands before the second.
#[tactic(auto, using(crate::proofs::Divisor::divisor_worked))]
pub fn divisor_of(t: Term, u: Term) -> Divisor
    requires { Precedes t u }
    ensures { result ≡ divisor_of (record { first = t; second = u }) }
{
    let low = co_divisor(t, u);
    Divisor {
        a: t.symbol(),
        b: u.symbol(),
        ea: t.exponent() - low,
        eb: u.exponent() - low,
        minus: t.negative() != u.negative(),
    }
}

// The smallest a, then b, then ea, then eb, then plus before minus. No derived order is as plain: the key is also what the kept scores hold and
// what test_scores prints the sums of, and one comparison of numbers decides.
pub fn key(d: Divisor) -> u32
    requires { (d.a < symbol_room) × (d.b < symbol_room) × (d.ea < exponent_room) × (d.eb < exponent_room) }
    ensures { result ≡ divisor_key d }
{
    let symbols = u32::from(d.a) * SYMBOL_ROOM + u32::from(d.b);
    let exponents = (symbols * EXPONENT_ROOM + u32::from(d.ea)) * EXPONENT_ROOM + u32::from(d.eb);
    exponents * 2 + u32::from(d.minus)
}

// The divisor of a key.
#[tactic(auto, unfolding(elimination_rules::specs::Rank::key_divisor))]
pub fn divisor_of_key(key: u32) -> Divisor
    ensures { result ≡ key_divisor key }
{
    Divisor {
        a: (key / (SYMBOL_ROOM * EXPONENT_ROOM * EXPONENT_ROOM * 2)) as u16,
        b: (key / (EXPONENT_ROOM * EXPONENT_ROOM * 2) % SYMBOL_ROOM) as u16,
        ea: (key / (EXPONENT_ROOM * 2) % EXPONENT_ROOM) as u8,
        eb: (key / 2 % EXPONENT_ROOM) as u8,
        minus: key % 2 == 1,
    }
}

// The smallest depth, then the smallest key. Of divisors with the highest score, the one of the lowest rank is picked.
pub fn rank(depths: &[u16; MAX_SYMBOLS], key: u32) -> u64
    requires { ((key_divisor key).a < max_symbols) × ((key_divisor key).b < max_symbols) }
    ensures { result ≡ divisor_rank depths.now (key_divisor key) }
{
    let d = divisor_of_key(key);
    let a = d.a as usize;
    let b = d.b as usize;
    let depth = u64::from(depths[a].max(depths[b])) + 1;
    depth * u64::from(KEY_ROOM) + u64::from(key)
}
