// Document 01, "Verilog": the lines of a module, as `verilog_rules` has them. Each writer is lent the part of the text that starts at the
// current place, as those of `text` are.
#![tactic(auto, using(text::proofs::Writers::writers))]

ghost use Rattle.std.specs.Prelude.{cond, ◌++◌, ◌≡◌, ◌+◌, ◌<◌, ◌≤◌, pred, eqb, length};
ghost use Rattle.text.specs.Decimal.{number};
ghost use Rattle.text.specs.Text.{ascii};
ghost use Rattle.text.specs.Wrote.{Wrote};
ghost use Rattle.verilog_rules.specs.Module.{operand, wire_of, output_of};
ghost use Rattle.verilog_rules.specs.Text.{port_end, input_line, output_line, wire_line, name, operand_text, expression_text, wire_assignment, output_assignment};
ghost use Rattle.verilog_lines.specs.Room.{longest_port_line, longest_wire_line, longest_wire_assignment, longest_output_assignment};

use layout_rules::{Operation, Output};
use text::{write_labelled, write_pair};

// Bytes that hold the line of a port, and the assignment of a wire and of an output.
pub const LONGEST_PORT_LINE: usize = 34;

pub const LONGEST_WIRE_ASSIGNMENT: usize = 59;

pub const LONGEST_OUTPUT_ASSIGNMENT: usize = 39;

// The number of a vector's highest bit; 0 for a width of 0.
fn top_bit(width: u8) -> u16
    ensures { result ≡ pred width }
{
    u16::from(width.saturating_sub(1))
}

// What stands behind the port with a number, counted from 1 on.
fn write_port_end(ports: u16, port: u16, text: &mut [u8]) -> usize
    requires { 2 ≤ length text.old }
    ensures wrote { Wrote text.old text.new result (port_end ports port) }
    ensures upper_bound { result ≤ 2 }
{
    let end: &[u8] = if port == ports { b"\n" } else { b",\n" };
    byte_slices::copy(end, text)
}

// The line of a column's input.
pub fn write_input(ports: u16, column: u16, width: u8, text: &mut [u8]) -> usize
    requires column_bound { column < 65535 }
    requires longest_port_line_in_bounds { longest_port_line ≤ length text.old }
    ensures wrote { Wrote text.old text.new result (input_line ports column width) }
    ensures upper_bound { result ≤ longest_port_line }
{
    let top = top_bit(width);
    let at = write_pair(b"  input signed [", top, b":0] x", column, text);
    at + write_port_end(ports, column + 1, &mut text[at..])
}

// The line of a row's output, behind the inputs.
pub fn write_output(ports: u16, inputs: u16, row: u16, output: Output, text: &mut [u8]) -> usize
    requires row_bound { inputs + row < 65535 }
    requires longest_port_line_in_bounds { longest_port_line ≤ length text.old }
    ensures wrote { Wrote text.old text.new result (output_line ports inputs row (output_of output)) }
    ensures upper_bound { result ≤ longest_port_line }
{
    let top = top_bit(output.width);
    let at = write_pair(b"  output signed [", top, b":0] y", row, text);
    at + write_port_end(ports, inputs + row + 1, &mut text[at..])
}

// The line that declares the wire of the operation with a symbol.
pub fn write_wire(symbol: u16, operation: Operation, text: &mut [u8]) -> usize
    requires { longest_wire_line ≤ length text.old }
    ensures wrote { Wrote text.old text.new result (wire_line symbol (wire_of operation)) }
    ensures upper_bound { result ≤ longest_wire_line }
{
    let top = top_bit(operation.width);
    let at = write_pair(b"  wire signed [", top, b":0] s", symbol, text);
    at + byte_slices::copy(b";\n", &mut text[at..])
}

// An operand up to its shift, without the bracket that closes it.
fn write_unclosed_operand(inputs: u16, symbol: u16, shift: u8, text: &mut [u8]) -> usize
    requires { 17 ≤ length text.old }
    ensures wrote { Wrote text.old text.new result (ascii "(" ++ name inputs symbol ++ ascii " <<< " ++ number shift) }
    ensures upper_bound { result ≤ 17 }
{
    let signal: &[u8] = if symbol < inputs { b"(x" } else { b"(s" };
    write_pair(signal, symbol, b" <<< ", shift as u16, text)
}

// The signal of a symbol, shifted to the left.
fn write_operand(inputs: u16, symbol: u16, shift: u8, text: &mut [u8]) -> usize
    requires { 18 ≤ length text.old }
    ensures wrote { Wrote text.old text.new result (operand_text inputs (operand symbol shift)) }
    ensures upper_bound { result ≤ 18 }
{
    let at = write_unclosed_operand(inputs, symbol, shift, text);
    at + byte_slices::copy(b")", &mut text[at..])
}

// The sign between an operation's operands.
fn write_sign(sign: u8, text: &mut [u8]) -> usize
    requires { 3 ≤ length text.old }
    ensures wrote { Wrote text.old text.new result (cond (eqb sign 0) (ascii " + ") (ascii " - ")) }
    ensures upper_bound { result ≤ 3 }
{
    let joined: &[u8] = if sign == 0 { b" + " } else { b" - " };
    byte_slices::copy(joined, text)
}

// What is assigned to the wire of an operation.
fn write_operation_expression(inputs: u16, operation: Operation, text: &mut [u8]) -> usize
    requires { 39 ≤ length text.old }
    ensures wrote { Wrote text.old text.new result (expression_text inputs (wire_of operation).expression) }
    ensures upper_bound { result ≤ 39 }
{
    let sign = write_operand(inputs, operation.a, operation.sa, text);
    let second = sign + write_sign(operation.sign, &mut text[sign..]);
    second + write_operand(inputs, operation.b, operation.sb, &mut text[second..])
}

// The assignment to the wire of the operation with a symbol.
pub fn write_wire_assignment(
    inputs: u16,
    symbol: u16,
    operation: Operation,
    text: &mut [u8],
) -> usize
    requires { longest_wire_assignment ≤ length text.old }
    ensures wrote { Wrote text.old text.new result (wire_assignment inputs symbol (wire_of operation)) }
    ensures upper_bound { result ≤ longest_wire_assignment }
{
    let equals = write_labelled(b"  assign s", symbol, text);
    let value = equals + byte_slices::copy(b" = ", &mut text[equals..]);
    let end = value + write_operation_expression(inputs, operation, &mut text[value..]);
    end + byte_slices::copy(b";\n", &mut text[end..])
}

// What is assigned to an output: plus, minus, or the constant zero.
fn write_output_expression(inputs: u16, output: Output, text: &mut [u8]) -> usize
    requires { 19 ≤ length text.old }
    ensures wrote { Wrote text.old text.new result (expression_text inputs (output_of output).expression) }
    ensures upper_bound { result ≤ 19 }
{
    match output.sign {
        0 => write_operand(inputs, output.symbol, output.shift, text),
        1 => {
            let at = byte_slices::copy(b"-", text);
            at + write_operand(inputs, output.symbol, output.shift, &mut text[at..])
        }
        _ => byte_slices::copy(b"1'sb0", text),
    }
}

// The assignment to a row's output. It shares the calls of a wire's, but neither label nor expression: a closure for the latter is longer.
pub fn write_output_assignment(inputs: u16, row: u16, output: Output, text: &mut [u8]) -> usize
    requires { longest_output_assignment ≤ length text.old }
    ensures wrote { Wrote text.old text.new result (output_assignment inputs row (output_of output)) }
    ensures upper_bound { result ≤ longest_output_assignment }
{
    let equals = write_labelled(b"  assign y", row, text);
    let value = equals + byte_slices::copy(b" = ", &mut text[equals..]);
    let end = value + write_output_expression(inputs, output, &mut text[value..]);
    end + byte_slices::copy(b";\n", &mut text[end..])
}
