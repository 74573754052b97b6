// Numbers and labels as text, lines one behind another, and the line of a refusal. Each writer is lent the part of the text that starts at
// the current place, returns the number of bytes it wrote, and leaves what stands behind them as it was. Rests on `byte_slices`.
#![tactic(auto, using(crate::proofs::Writers::writers))]

ghost use Rattle.std.specs.Prelude.{ℕ, List, ◌++◌, ◌+◌, ◌*◌, ◌<◌, ◌≤◌, length};
ghost use Rattle.text.specs.Decimal.{number};
ghost use Rattle.text.specs.Text.{ascii, lines_of, refused_line, longest_refused_line};
ghost use Rattle.text.specs.Wrote.{Wrote, WritesEach};

// A number in decimal: its digits are worked out from the last to the first, then copied. `Display` is no plainer: it writes to a
// `fmt::Write`, which a slice is not, and may fail.
pub fn write_number(value: usize, text: &mut [u8]) -> usize
    requires { length (number value) ≤ length text.old }
    ensures wrote { Wrote text.old text.new result (number value) }
    ensures upper_bound { result ≤ 20 }
{
    let mut digits = [0u8; 20];
    let mut start: usize = 19;
    let mut rest = value;
    // Not by a `for`: it goes by what is left of the number.
    while rest >= 10 {
        digits[start] = b'0' + (rest % 10) as u8;
        start -= 1;
        rest /= 10;
    }
    digits[start] = b'0' + rest as u8;
    byte_slices::copy(&digits[start..], text)
}

// A label and the number behind it, at most 5 digits.
pub fn write_labelled(label: &[u8], value: u16, text: &mut [u8]) -> usize
    requires { length label.now + 5 ≤ length text.old }
    ensures wrote { Wrote text.old text.new result (label.now ++ number value) }
    ensures upper_bound { result ≤ length label.now + 5 }
{
    let at = byte_slices::copy(label, text);
    at + write_number(value as usize, &mut text[at..])
}

// Two labels, each with the number behind it.
pub fn write_pair(label: &[u8], value: u16, second: &[u8], other: u16, text: &mut [u8]) -> usize
    requires { length label.now + length second.now + 10 ≤ length text.old }
    ensures wrote { Wrote text.old text.new result (label.now ++ number value ++ second.now ++ number other) }
    ensures upper_bound { result ≤ length label.now + length second.now + 10 }
{
    let at = write_labelled(label, value, text);
    at + write_labelled(second, other, &mut text[at..])
}

// A label, the number behind it, and the line's end.
pub fn write_last(label: &[u8], value: u16, text: &mut [u8]) -> usize
    requires { length label.now + 6 ≤ length text.old }
    ensures wrote { Wrote text.old text.new result (label.now ++ number value ++ ascii "\n") }
    ensures upper_bound { result ≤ length label.now + 6 }
{
    let at = write_labelled(label, value, text);
    at + byte_slices::copy(b"\n", &mut text[at..])
}

// A number of at most 20 digits between two labels.
pub fn write_between(label: &[u8], value: usize, other: &[u8], text: &mut [u8]) -> usize
    requires { length label.now + length other.now + 20 ≤ length text.old }
    ensures wrote { Wrote text.old text.new result (label.now ++ number value ++ other.now) }
    ensures upper_bound { result ≤ length label.now + length other.now + 20 }
{
    let at = byte_slices::copy(label, text);
    let end = at + write_number(value, &mut text[at..]);
    end + byte_slices::copy(other, &mut text[end..])
}

// The lines of the numbers below the count, one behind another: the caller writes each, and none is longer than the longest.
pub fn write_lines<F: Fn(u16, &mut [u8]) -> usize>(count: u16, line: F, text: &mut [u8]) -> usize
    ghost longest: { ℕ }
    requires room { longest * count ≤ length text.old }
    requires callable { (k : _) (part : _) → k < count → longest ≤ length part.now → F.pre line k part }
    requires bounded { (k : _) (before : _) (written : _) (after : _) → k < count → F.post line k before written after → written ≤ longest }
    ensures wrote { (each : ℕ → List ℕ) → WritesEach (F.post line) count each → Wrote text.old text.new result (lines_of each count) }
    ensures upper_bound { result ≤ longest * count }
{
    let mut at = 0;
    for k in 0..count {
        at += line(k, &mut text[at..]);
    }
    at
}

// Bytes that hold the line of a refusal: a number of 5 digits and a place of 20.
pub const LONGEST_REFUSED_LINE: usize = 38;

// The line of a refusal.
pub fn write_refused(refusal: u8, place: usize, text: &mut [u8]) -> usize
    requires { longest_refused_line ≤ length text.old }
    ensures wrote { Wrote text.old text.new result (refused_line refusal place) }
    ensures upper_bound { result ≤ longest_refused_line }
{
    let at = write_labelled(b"refused ", refusal as u16, text);
    at + write_between(b" at ", place, b"\n", &mut text[at..])
}
