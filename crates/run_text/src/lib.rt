// Document 01, "Programs": the text of run-bank for a netlist and the bytes of samples, one output a line, in decimal. Rests on `limits`,
// `netlist_run` and `text`, and on `board_width` for a number's positive and negative part.
#![tactic(auto)]

pub mod samples; // samples.rt: run, with the samples given as bytes

ghost use Rattle.std.specs.Prelude.{◌≡◌, ◌*◌, ◌-◌, ◌≤◌, pos, length, replicate};
ghost use Rattle.limits.specs.Limits.{max_rows};
ghost use Rattle.text.specs.Wrote.{Wrote, PrefixLength};
ghost use Rattle.run_text.specs.RunText.{signed_number, longest_line, longest_run_text, value_line, value_lines, rows_read, run_text, run_text_in};

use limits::MAX_ROWS;

// The longest line: a sign, 19 digits and a line feed.
const LONGEST_LINE: usize = 21;

// The longest text: a line for each row.
pub const ROOM: usize = LONGEST_LINE * MAX_ROWS;

// A whole number in decimal, with a minus sign where it is negative.
pub fn write_signed(value: i64, text: &mut [u8]) -> usize
    requires { longest_line - 1 ≤ length text.old }
    ensures wrote { Wrote text.old text.new result (signed_number value) }
    ensures upper_bound { result ≤ longest_line - 1 }
{
    if value < 0 {
        let at = byte_slices::copy(b"-", text);
        return at + text::write_number(board_width::negative_part(value) as usize, &mut text[at..]);
    }
    text::write_number(board_width::positive_part(value) as usize, text)
}

// An output and the line's end.
fn write_output(value: i64, text: &mut [u8]) -> usize
    requires { longest_line ≤ length text.old }
    ensures wrote { Wrote text.old text.new result (value_line value) }
    ensures upper_bound { result ≤ longest_line }
{
    let at = write_signed(value, text);
    at + byte_slices::copy(b"\n", &mut text[at..])
}

// The outputs in their order, one a line.
fn write_outputs(outputs: &[i64], text: &mut [u8]) -> usize
    requires { longest_line * length outputs.now ≤ length text.old }
    ensures wrote { Wrote text.old text.new result (value_lines outputs.now) }
    ensures upper_bound { result ≤ longest_line * length outputs.now }
{
    let mut at: usize = 0;
    for &output in outputs {
        at += write_output(output, &mut text[at..]);
    }
    at
}

// Runs on the lent outputs and writes what is left in them, or the refusal.
fn run_and_write(netlist: &[u8], samples: &[u8], outputs: &mut [i64], text: &mut [u8]) -> usize
    requires outputs_value { outputs.old ≡ replicate (rows_read netlist.now) (pos 0) }
    requires outputs_len_bound { (length outputs.old ≤ max_rows) × (longest_run_text ≤ length text.old) }
    ensures { Wrote text.old text.new result (run_text netlist.now samples.now) }
{
    let answer = samples::run_on_bytes(netlist, samples, outputs);
    // A number, since the documented call answers by `run_answer`.
    if answer.refusal != 0 {
        return text::write_refused(answer.refusal, answer.place, text);
    }
    write_outputs(outputs, text)
}

// As many outputs are lent to run as read says that there are rows, at most as many as any netlist has.
fn write_text(netlist: &[u8], samples: &[u8], text: &mut [u8]) -> usize
    requires { longest_run_text ≤ length text.old }
    ensures { Wrote text.old text.new result (run_text netlist.now samples.now) }
{
    let m = netlist_read::read(netlist).m as usize;
    let mut outputs: [i64; MAX_ROWS] = [0; MAX_ROWS];
    run_and_write(netlist, samples, &mut outputs[..m], text)
}

// Writes the text at the start of the lent bytes and answers how long it is; nothing where they are too few.
pub fn write_run(netlist: &[u8], samples: &[u8], text: &mut [u8]) -> usize
    ensures wrote { Wrote text.old text.new result (run_text_in (length text.old) netlist.now samples.now) }
    ensures prefix_length { PrefixLength result text.new }
{
    // A closure that asks for room would need the whole equation again as its contract, for one `if`.
    if text.len() < ROOM {
        return 0;
    }
    write_text(netlist, samples, text)
}
