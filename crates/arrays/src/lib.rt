// An array that holds one value in every place. Rests on nothing.
#![tactic(auto)]

ghost use Rattle.std.specs.Prelude.{◌≡◌};
ghost use Rattle.arrays.specs.Filled.{filled};

// A function, and not the expression in its place, so that a caller's proof sees the length as a name and not the places one by one.
pub fn filled<T: Copy, const N: usize>(x: T) -> [T; N]
    ensures { result ≡ filled N x }
{
    [x; N]
}
