// What the writers and readers of bytes share: copying into the front of a buffer, and the search for a byte. Rests on nothing.
#![tactic(auto)]

ghost use Rattle.std.specs.Prelude.{◌≡◌, ◌+◌, ◌≤◌, ◌++◌, length, drop, position, ◌==◌};
ghost use Rattle.byte_slices.specs.Search.{index_of, slice};

// Copies all bytes into the front of a buffer, and returns how many they are.
pub fn copy(from: &[u8], to: &mut [u8]) -> usize
    requires { length from.now ≤ length to.old }
    ensures count { result ≡ length from.now }
    ensures copied { to.new ≡ from.now ++ drop (length from.now) to.old }
{
    let count = from.len();
    to[..count].copy_from_slice(from);
    count
}

// The index of the first byte that is wanted.
fn first(bytes: &[u8], wanted: u8) -> Option<usize>
    ensures { result ≡ position (λ b. b == wanted) bytes.now }
{
    bytes.iter().position(|byte| *byte == wanted)
}

// The index of the first byte from start on, and before end, that is wanted; end where there is none.
pub fn find(bytes: &[u8], start: usize, end: usize, wanted: u8) -> usize
    requires { (start ≤ end) × (end ≤ length bytes.now) }
    ensures { result ≡ start + index_of wanted (slice start end bytes.now) }
{
    first(&bytes[start..end], wanted).map_or(end, |place| start + place)
}
