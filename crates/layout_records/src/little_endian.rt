// Little-endian numbers in lent bytes, and two's complement of four.
ghost use Rattle.std.specs.Prelude.{◌≡◌, ◌+◌, ◌<◌, ◌≤◌, length};
ghost use Rattle.layout_rules.specs.Bytes.{little_endian, word, double_word, signed_of};
ghost use Rattle.layout_rules.specs.Written.{written};

// The number whose two bytes stand at a place.
pub fn word_at(bytes: &[u8], place: usize) -> u16
    requires { place + 1 < length bytes.now }
    ensures { result ≡ word bytes.now place }
{
    u16::from_le_bytes([bytes[place], bytes[place + 1]])
}

// The number whose four bytes stand at a place.
pub fn double_word_at(bytes: &[u8], place: usize) -> u32
    requires { place + 4 ≤ length bytes.now }
    ensures { result ≡ double_word bytes.now place }
{
    u32::from_le_bytes([
        bytes[place],
        bytes[place + 1],
        bytes[place + 2],
        bytes[place + 3],
    ])
}

// Two's complement of four bytes.
pub fn signed_double_word(x: u32) -> i32
    ensures { result ≡ signed_of 32 x }
{
    x.cast_signed()
}

// The two bytes of a number, written at a place; what stands before and behind them stays as it was.
pub fn write_word(buffer: &mut [u8], place: usize, number: u16)
    requires { place + 1 < length buffer.old }
    ensures { buffer.new ≡ written buffer.old place (little_endian number) }
{
    buffer[place..place + 2].copy_from_slice(&number.to_le_bytes());
}
