// Document 01, "Programs": the text of burn-in, a line for each of 1,000 generated banks. Rests on `generator`, `compile`, `netlist_check`
// and `text`.
#![tactic(auto)]

ghost use Rattle.std.specs.Prelude.{◌≡◌, ◌*◌, ◌≤◌, length};
ghost use Rattle.layout_rules.specs.Matrix.{longest_record};
ghost use Rattle.text.specs.Text.{longest_refused_line};
ghost use Rattle.text.specs.Wrote.{Wrote, PrefixLength};
ghost use Rattle.burn_in_text.specs.BurnInText.{outcome_text, burn_in_line, longest_burn_in_line, burn_in_lines, seed_step, seed_count, burn_in_text_in};

use arrays::filled;
use layout_matrix::LONGEST_RECORD;
use layout_records::places::ENOUGH_BYTES;
use limits::UNSTATED_WIDTH;

// "seeds 0 to 999".
const SEED_COUNT: usize = 1000;

// A seed between `seed ` and a blank, and the line of a refusal.
const LONGEST_LINE: usize = 26 + text::LONGEST_REFUSED_LINE;

// The longest text.
pub const ROOM: usize = LONGEST_LINE * SEED_COUNT;

// What compile, for samples of 16 bits, and check say of a matrix record. The room stays a clause: it is a bound of a plain number.
fn write_outcome(matrix: &[u8], text: &mut [u8]) -> usize
    requires { longest_refused_line ≤ length text.old }
    ensures wrote { Wrote text.old text.new result (outcome_text matrix.now) }
    ensures upper_bound { result ≤ longest_refused_line }
{
    let mut netlist: [u8; ENOUGH_BYTES] = filled(0);
    let compiled = compile::compile(matrix, UNSTATED_WIDTH, &mut netlist);
    // Numbers, since the documented calls answer by `compile_answer` and `check_answer`.
    if compiled.refusal != 0 {
        return text::write_refused(compiled.refusal, compiled.place, text);
    }
    let written = compiled.written;
    let checked = netlist_check::check(matrix, &netlist[..written]);
    if checked.refusal != 0 {
        return text::write_refused(checked.refusal, checked.place, text);
    }
    text::write_last(b"operations ", compiled.operations, text)
}

// The line of a seed's 8 by 8 bank.
fn write_line(seed: u32, text: &mut [u8]) -> usize
    requires { longest_burn_in_line ≤ length text.old }
    ensures wrote { Wrote text.old text.new result (burn_in_line seed) }
    ensures upper_bound { result ≤ longest_burn_in_line }
{
    let mut record: [u8; LONGEST_RECORD] = filled(0);
    generator::generate(8, 8, seed, &mut record); // its room is the record's, so it refuses none and fills all of it
    let at = text::write_between(b"seed ", seed as usize, b" ", text);
    at + write_outcome(&record, &mut text[at..])
}

// The lines of all seeds, each the one before plus a step.
fn write_lines(step: u32, text: &mut [u8]) -> usize
    requires { longest_burn_in_line * seed_count ≤ length text.old }
    ensures { Wrote text.old text.new result (burn_in_lines step seed_count) }
{
    let mut seed: u32 = 0;
    let mut at: usize = 0;
    for _ in 0..SEED_COUNT {
        at += write_line(seed, &mut text[at..]);
        seed = seed.wrapping_add(step);
    }
    at
}

// By how much seeds go up: `burn_in_text_in` is told by a Bool, as the program is.
fn seed_step(spread: bool) -> u32
    ensures { result ≡ seed_step spread }
{
    if spread { 19088743 } else { 1 }
}

// Writes the text at the start of the lent bytes and answers how long it is; nothing where they are too few.
pub fn write_burn_in(spread: bool, text: &mut [u8]) -> usize
    ensures wrote { Wrote text.old text.new result (burn_in_text_in (length text.old) spread) }
    ensures prefix_length { PrefixLength result text.new }
{
    // A closure that asks for room would need the whole equation again as its contract, for one `if`.
    if text.len() < ROOM {
        return 0;
    }
    write_lines(seed_step(spread), text)
}
