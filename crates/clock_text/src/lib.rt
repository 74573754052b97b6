// Document 01, "Programs": the text of clock-bank, a line of outputs a clock, each in decimal, one blank between two. Rests on `run_text` for
// a number with its sign, on `text` and on `byte_slices`.
#![tactic(auto)]

pub mod lists; // lists.rt: clock, with the samples given as bytes

ghost use Rattle.std.specs.Prelude.{◌≡◌, ◌+◌, ◌*◌, ◌≤◌, length};
ghost use Rattle.limits.specs.Limits.{max_rows};
ghost use Rattle.text.specs.Text.{refused_line, longest_refused_line};
ghost use Rattle.text.specs.Wrote.{Wrote, text_in, PrefixLength};
ghost use Rattle.run_text.specs.RunText.{longest_line};
ghost use Rattle.clock_text.specs.Lines.{separated, clock_line, outputs_at, longest_clock_line, line_there, line_in};

use limits::MAX_ROWS;
use run_text::{ROOM, write_signed};
use text::LONGEST_REFUSED_LINE;

// The longest line: as many bytes as the outputs of run-bank.
const LONGEST_CLOCK_LINE: usize = ROOM;

// An output, and a blank where more follow, else the line's end.
fn write_separated(value: i64, more: bool, text: &mut [u8]) -> usize
    requires { longest_line ≤ length text.old }
    ensures wrote { Wrote text.old text.new result (separated value more) }
    ensures upper_bound { result ≤ longest_line }
{
    let at = write_signed(value, text);
    if more {
        return at + byte_slices::copy(b" ", &mut text[at..]);
    }
    at + byte_slices::copy(b"\n", &mut text[at..])
}

// The outputs in their order.
fn write_outputs(outputs: &[i64], text: &mut [u8]) -> usize
    requires { longest_line * length outputs.now ≤ length text.old }
    ensures { Wrote text.old text.new result (clock_line outputs.now) }
{
    let mut at: usize = 0;
    let count = outputs.len();
    // By index: the last one has another end.
    for i in 0..count {
        at += write_separated(outputs[i], i + 1 < count, &mut text[at..]);
    }
    at
}

// The line of a clock, of all outputs one clock after another.
fn write_there(outputs: &[i64], rows: usize, clock: usize, text: &mut [u8]) -> usize
    requires rows_le_max_rows { (rows ≤ max_rows) × (clock * rows + rows ≤ length outputs.now) }
    requires longest_clock_line_in_bounds { longest_clock_line ≤ length text.old }
    ensures { Wrote text.old text.new result (clock_line (outputs_at rows outputs.now clock)) }
{
    let start = clock * rows;
    let end = start + rows;
    write_outputs(&outputs[start..end], text)
}

// Whether the outputs of a clock are there, of so many rows.
#[tactic(auto, unfolding(crate::specs::Lines::line_there))]
fn line_there(outputs: &[i64], rows: usize, clock: usize) -> bool
    ensures { result ≡ line_there rows (length outputs.now) clock }
{
    rows <= MAX_ROWS && clock <= outputs.len() && clock * rows + rows <= outputs.len()
}

// Writes the line of a clock at the start of the lent bytes and answers how long it is; nothing where they are too few, or the outputs of the
// clock are not there.
pub fn write_line(outputs: &[i64], rows: usize, clock: usize, text: &mut [u8]) -> usize
    ensures wrote { Wrote text.old text.new result (line_in (length text.old) rows outputs.now clock) }
    ensures prefix_length { PrefixLength result text.new }
{
    if !line_there(outputs, rows, clock) {
        return 0;
    }
    // A closure that asks for room would need the whole equation again as its contract, for one `if`.
    if text.len() < LONGEST_CLOCK_LINE {
        return 0;
    }
    write_there(outputs, rows, clock, text)
}

// Writes the line of a refusal at the start of the lent bytes and answers how long it is; nothing where they are too few.
pub fn write_refusal(refusal: u8, place: usize, text: &mut [u8]) -> usize
    ensures wrote { Wrote text.old text.new result (text_in longest_refused_line (length text.old) (refused_line refusal place)) }
    ensures prefix_length { PrefixLength result text.new }
{
    // As in write_line.
    if text.len() < LONGEST_REFUSED_LINE {
        return 0;
    }
    text::write_refused(refusal, place, text)
}
