// Document 01, "Digits and terms": the canonic signed digits of a coefficient, lowest position first. Rests on `limits` and `integers`.
#![tactic(auto)]

ghost use Rattle.std.specs.Prelude.{◌≡◌};
ghost use Rattle.limits.specs.Limits.{positions};
ghost use Rattle.digits.specs.Digits.{digit, rest, digits};

use limits::POSITIONS;

// An odd number's digit is the one that leaves a multiple of 4.
fn digit_of(z: i32) -> i8
    ensures { result ≡ digit z }
{
    match z & 3 {
        1 => 1,
        3 => -1,
        _ => 0,
    }
}

// What is left above the digit, with the carry of a digit −1.
fn rest_of(z: i32) -> i32
    ensures { result ≡ rest z }
{
    let half = z >> 1;
    if z & 3 == 3 { half + 1 } else { half }
}

// The rest is worked in i32, where a carry at the top has room.
pub fn digits(z: i16) -> [i8; POSITIONS]
    ensures { result ≡ digits positions z }
{
    let mut out = [0i8; POSITIONS];
    let mut left = z as i32;
    for i in 0..POSITIONS {
        out[i] = digit_of(left);
        left = rest_of(left);
    }
    out
}
