// Document 01, "Elimination": occurrences in one row, as masks. Rests on `bits`.
ghost use Rattle.std.specs.Prelude.{◌≡◌, not, ◌&&◌, ◌-◌, ◌<◌, leb};
ghost use Rattle.limits.specs.Limits.{positions};
ghost use Rattle.bits.specs.Bits.{bit_at};
ghost use Rattle.elimination_masks.specs.Masks.{occurrence_mask, apart_mask};

use bits::bit_at;
use elimination_rules::Divisor;
use limits::POSITIONS;

// Bit c: there is an occurrence with co-divisor c, from the plus and minus terms of a and of b.
#[tactic(auto, unfolding(crate::specs::Masks::occurrence_mask))]
pub(crate) fn occurrences(a_plus: u16, a_minus: u16, b_plus: u16, b_minus: u16, d: Divisor) -> u16
    requires { (d.ea < positions) × (d.eb < positions) }
    ensures { result ≡ occurrence_mask d a_plus a_minus b_plus b_minus }
{
    let ea = d.ea as u16;
    let eb = d.eb as u16;
    let with_plus = if d.minus { b_minus } else { b_plus };
    let with_minus = if d.minus { b_plus } else { b_minus };
    ((a_plus >> ea) & (with_plus >> eb)) | ((a_minus >> ea) & (with_minus >> eb))
}

// The occurrence at c is taken, if there is one and that at c - distance is not taken.
fn takes(occurrences: u16, distance: u16, taken: u16, c: u16) -> bool
    requires { c < positions }
    ensures { result ≡ bit_at occurrences c && not (leb distance c && bit_at taken (c - distance)) }
{
    bit_at(occurrences, c) && !(distance <= c && bit_at(taken, c - distance))
}

// Those taken where a and b are one symbol: by ascending co-divisor, one that overlaps none taken before.
pub(crate) fn apart(occurrences: u16, distance: u8) -> u16
    ensures { result ≡ apart_mask occurrences distance positions }
{
    let distance = distance as u16;
    let mut taken: u16 = 0;
    for c in 0..POSITIONS as u16 {
        if takes(occurrences, distance, taken, c) {
            taken += 1u16 << c;
        }
    }
    taken
}
