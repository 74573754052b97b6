// Document 01, "Matrix Market files": the lines of a lent text, comments, and the digits of a number, as `market_rules` has them.
#![tactic(auto)]

ghost use Rattle.std.specs.Prelude.{◌≡◌, ◌+◌, ◌≤◌, min, length, drop};
ghost use Rattle.text.specs.Decimal.{decimal_value};
ghost use Rattle.market_rules.specs.Lines.{line};
ghost use Rattle.market_rules.specs.Forms.{is_comment, leading_digits};

pub const LINE_FEED: u8 = b'\n';

// Where the line ends that starts at a place: behind its line feed, or at the text's end where it has none.
pub fn line_end(text: &[u8], place: usize) -> usize
    requires { place ≤ length text.now }
    ensures value { result ≡ place + length (line (drop place text.now) 0) }
    ensures lower_bound { (place ≤ result) × (result ≤ length text.now) }
{
    let found = byte_slices::find(text, place, text.len(), LINE_FEED);
    if found < text.len() { found + 1 } else { found }
}

pub fn is_comment(line: &[u8]) -> bool
    ensures { result ≡ is_comment line.now }
{
    matches!(line, [b'%', .., LINE_FEED])
}

// What digits say that follow one another, and where they end. A value above 65,535 is told as 65,535: no number of digits wraps.
#[derive(Clone, Copy)]
pub struct Digits {
    pub end: usize,
    pub value: u32,
}

pub fn read_digits(bytes: &[u8], from: usize) -> Digits
    requires { from ≤ length bytes.now }
    ensures end_value { result.end ≡ from + length (leading_digits (drop from bytes.now)) }
    ensures end_in_bounds { result.end ≤ length bytes.now }
    ensures value_value { result.value ≡ min (decimal_value (leading_digits (drop from bytes.now))) 65535 }
{
    let mut value: u32 = 0;
    for end in from..bytes.len() {
        let byte = bytes[end];
        if !byte.is_ascii_digit() {
            return Digits { end, value };
        }
        value = (10 * value + (byte - b'0') as u32).min(65535);
    }
    Digits {
        end: bytes.len(),
        value,
    }
}
