// Laws of the whole numbers and of the signed machine integers that hold them: they stand in proofs/. Besides, the shift of
// a number. Rests on nothing.
#![tactic(auto)]

ghost use Rattle.std.specs.Prelude.{◌≡◌, ◌<◌, ◌^◌, pos, ◌*ℤ◌};
ghost use Rattle.std.specs.Int.{w64};
ghost use Rattle.std.proofs.Common.{SFits};

// x times 2 to the s, where that fits.
pub fn shifted(x: i64, s: u8) -> i64
    requires { (s < 64) × SFits w64 (x *ℤ pos (2 ^ s)) }
    ensures { result ≡ x *ℤ pos (2 ^ s) }
{
    x << s
}
