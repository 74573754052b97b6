// Document 01, "Programs": the lines that the program list-bank prints, as `listing_rules` has them. Each writer is lent the part of
// the text that starts at the current place, as those of `text` are.
#![tactic(auto, using(text::proofs::Writers::writers))]

ghost use Rattle.std.specs.Prelude.{◌++◌, ◌+◌, ◌<◌, ◌≤◌, length};
ghost use Rattle.listing_rules.specs.Listing.{shifted_operand, counts_line, operation_sign, operation_line, entry_text, value_text, output_line};
ghost use Rattle.listing_rules.specs.Records.{longest_counts_line, longest_operation_line, longest_output_line};
ghost use Rattle.text.specs.Wrote.{Wrote};

use layout_rules::{Operation, Output};
use listing_rules::Counts;
use text::{write_labelled, write_last, write_pair};

// The first line: the counts.
pub fn write_counts(counts: Counts, text: &mut [u8]) -> usize
    requires { longest_counts_line ≤ length text.old }
    ensures wrote { Wrote text.old text.new result (counts_line counts) }
    ensures upper_bound { result ≤ longest_counts_line }
{
    let inputs = write_pair(
        b"inputs ",
        counts.inputs,
        b" outputs ",
        counts.outputs,
        text,
    );
    let operations = inputs
        + write_pair(
            b" operations ",
            counts.operations,
            b" plain ",
            counts.plain,
            &mut text[inputs..],
        );
    let divisors = operations
        + write_pair(
            b" divisors ",
            counts.divisors,
            b" replacements ",
            counts.replacements,
            &mut text[operations..],
        );
    divisors + write_last(b" depth ", counts.depth, &mut text[divisors..])
}

// An operation's sign and its second operand.
fn write_second(operation: Operation, text: &mut [u8]) -> usize
    requires { 15 ≤ length text.old }
    ensures wrote { Wrote text.old text.new result (operation_sign operation.sign ++ shifted_operand operation.b operation.sb) }
    ensures upper_bound { result ≤ 15 }
{
    let sign: &[u8] = if operation.sign == 0 { b" + " } else { b" - " };
    write_pair(sign, operation.b, b"<<", operation.sb as u16, text)
}

// The line of the operation with a symbol.
pub fn write_operation(symbol: u16, operation: Operation, text: &mut [u8]) -> usize
    requires { longest_operation_line ≤ length text.old }
    ensures wrote { Wrote text.old text.new result (operation_line symbol operation) }
    ensures upper_bound { result ≤ longest_operation_line }
{
    let first = write_labelled(b"", symbol, text);
    let sign = first
        + write_pair(
            b" = ",
            operation.a,
            b"<<",
            operation.sa as u16,
            &mut text[first..],
        );
    let width = sign + write_second(operation, &mut text[sign..]);
    width + write_last(b" width ", operation.width as u16, &mut text[width..])
}

// The entry of an output that is not zero, with its sign.
fn write_entry(output: Output, text: &mut [u8]) -> usize
    requires { 16 ≤ length text.old }
    ensures wrote { Wrote text.old text.new result (entry_text output) }
    ensures upper_bound { result ≤ 16 }
{
    let sign: &[u8] = if output.sign == 0 { b" = " } else { b" = -" };
    write_pair(sign, output.symbol, b"<<", output.shift as u16, text)
}

// What stands behind an output's row.
fn write_value(output: Output, text: &mut [u8]) -> usize
    requires { 29 ≤ length text.old }
    ensures wrote { Wrote text.old text.new result (value_text output) }
    ensures upper_bound { result ≤ 29 }
{
    // A byte of the record, which `value_text` asks for.
    if output.sign == 2 {
        return byte_slices::copy(b" = zero width 1\n", text);
    }
    let at = write_entry(output, text);
    at + write_last(b" width ", output.width as u16, &mut text[at..])
}

// The line of a row's output.
pub fn write_output(row: u16, output: Output, text: &mut [u8]) -> usize
    requires { longest_output_line ≤ length text.old }
    ensures wrote { Wrote text.old text.new result (output_line row output) }
    ensures upper_bound { result ≤ longest_output_line }
{
    let at = write_labelled(b"row ", row, text);
    at + write_value(output, &mut text[at..])
}
