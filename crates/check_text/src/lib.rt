// Document 01, "Programs": the text of check-bank for a matrix record and a netlist, `accepted` or the line of the refusal. Rests on
// `netlist_check` and `text`.
#![tactic(auto)]

ghost use Rattle.std.specs.Prelude.{◌≤◌, length};
ghost use Rattle.text.specs.Text.{longest_refused_line};
ghost use Rattle.text.specs.Wrote.{Wrote, PrefixLength};
ghost use Rattle.check_text.specs.CheckText.{check_text, check_text_in};

// The longest text: that of a refusal.
pub const ROOM: usize = text::LONGEST_REFUSED_LINE;

fn write_text(matrix: &[u8], netlist: &[u8], text: &mut [u8]) -> usize
    requires { longest_refused_line ≤ length text.old }
    ensures { Wrote text.old text.new result (check_text matrix.now netlist.now) }
{
    let answer = netlist_check::check(matrix, netlist);
    // A number, since the documented call answers by `check_answer`.
    if answer.refusal != 0 {
        return text::write_refused(answer.refusal, answer.place, text);
    }
    byte_slices::copy(b"accepted\n", text)
}

// Writes the text at the start of the lent bytes and answers how long it is; nothing where they are too few.
pub fn write_check(matrix: &[u8], netlist: &[u8], text: &mut [u8]) -> usize
    ensures wrote { Wrote text.old text.new result (check_text_in (length text.old) matrix.now netlist.now) }
    ensures prefix_length { PrefixLength result text.new }
{
    // A closure that asks for room would need the whole equation again as its contract, for one `if`.
    if text.len() < ROOM {
        return 0;
    }
    write_text(matrix, netlist, text)
}
