// Document 01, "Programs": the text of list-bank for a matrix record and a sample width. Rests on `limits`, `layout_records`,
// `compile`, `listing` and `arrays`.
#![tactic(auto)]

ghost use Rattle.std.specs.Prelude.{◌≤◌, length};
ghost use Rattle.text.specs.Wrote.{Wrote, PrefixLength};
ghost use Rattle.bank_text.specs.BankText.{bank_text, longest_bank_text, bank_text_in};

use arrays::filled;
use layout_records::places::ENOUGH_BYTES;
use limits::{MAX_OPERATIONS, MAX_ROWS};
use listing_rules::{Counts, LONGEST_COUNTS_LINE, LONGEST_OPERATION_LINE, LONGEST_OUTPUT_LINE};

// The longest text: that of the most operations and rows.
pub const ROOM: usize = LONGEST_COUNTS_LINE
    + LONGEST_OPERATION_LINE * MAX_OPERATIONS
    + LONGEST_OUTPUT_LINE * MAX_ROWS;

fn write_text(matrix: &[u8], sample_width: u8, text: &mut [u8]) -> usize
    requires { longest_bank_text ≤ length text.old }
    ensures { Wrote text.old text.new result (bank_text sample_width matrix.now) }
{
    let mut netlist: [u8; ENOUGH_BYTES] = filled(0);
    let answer = compile::compile(matrix, sample_width, &mut netlist);
    // A number, since the documented call answers by `compile_answer`.
    if answer.refusal != 0 {
        return text::write_refused(answer.refusal, answer.place, text);
    }
    let counts = Counts {
        inputs: layout_matrix::column_count(matrix) as u16,
        outputs: layout_matrix::row_count(matrix) as u16,
        operations: answer.operations,
        plain: answer.plain,
        divisors: answer.divisors,
        replacements: answer.replacements,
        depth: answer.depth,
    };
    listing::write_listing(counts, &netlist, text)
}

// Writes the text at the start of the lent bytes and answers how long it is; nothing where they are too few.
pub fn write_bank(matrix: &[u8], sample_width: u8, text: &mut [u8]) -> usize
    ensures wrote { Wrote text.old text.new result (bank_text_in (length text.old) sample_width matrix.now) }
    ensures prefix_length { PrefixLength result text.new }
{
    // A closure that asks for room would need the whole equation again as its contract, for one `if`.
    if text.len() < ROOM {
        return 0;
    }
    write_text(matrix, sample_width, text)
}
