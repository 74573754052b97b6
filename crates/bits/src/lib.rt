// The bits of a number, as definitions and laws, and the test of one bit. Rests on nothing.
#![tactic(auto)]

ghost use Rattle.std.specs.Prelude.{◌≡◌, ◌<◌};
ghost use Rattle.bits.specs.Bits.{bit_at};

// Whether bit e of a mask is set.
pub fn bit_at(mask: u16, e: u16) -> bool
    requires { e < 16 }
    ensures { result ≡ bit_at mask e }
{
    (mask >> e) % 2 == 1
}
