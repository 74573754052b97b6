// Document 01, "Verilog": write_verilog, the text of a netlist's module, as `verilog_rules` has it. Rests on `netlist_read`,
// `verilog_lines`, `text`, `arrays` and `refusals`, and sees nothing of the elimination. The text is written to a buffer of its own and then copied, since refusal 6 is
// known only once it is there.
#![tactic(auto, using(text::proofs::Writers::writers))]

ghost use Rattle.std.specs.Prelude.{◌≡◌, ◌+◌, ◌*◌, ◌≤◌, length, replicate};
ghost use Rattle.layout_rules.specs.Places.{netlist_in};
ghost use Rattle.text.specs.Text.{lines};
ghost use Rattle.text.specs.Wrote.{Wrote};
ghost use Rattle.verilog_rules.specs.Module.{module_of};
ghost use Rattle.verilog_rules.specs.Text.{first_line, input_line, output_line, wire_line, wire_assignment, output_assignment};
ghost use Rattle.verilog_rules.specs.Answer.{netlist_text, verilog_answer, verilog_buffer};
ghost use Rattle.verilog_lines.specs.Room.{longest_port_line, longest_wire_assignment, longest_output_assignment};
ghost use Rattle.verilog.specs.Parts.{wires, rows, ports_text, assignments_text, ports_room, assignments_room, room};
ghost use Rattle.verilog.specs.Answer.{answer_of};

use arrays::filled;
use limits::{MAX_COLUMNS, MAX_OPERATIONS, MAX_ROWS};
use netlist_read::accepted::Netlist;
use refusals::{Refusal, Refused};
use text::write_lines;
use verilog_lines::{LONGEST_OUTPUT_ASSIGNMENT, LONGEST_PORT_LINE, LONGEST_WIRE_ASSIGNMENT};
use verilog_rules::VerilogAnswer;

// The first line: without ports their list is empty.
fn write_first(ports: u16, text: &mut [u8]) -> usize
    requires { 14 ≤ length text.old }
    ensures wrote { Wrote text.old text.new result (first_line ports) }
    ensures upper_bound { result ≤ 14 }
{
    let first: &[u8] = if ports == 0 {
        b"module bank ("
    } else {
        b"module bank (\n"
    };
    byte_slices::copy(first, text)
}

// ---- lines of one kind

// The ports of the inputs, each of a width.
fn write_inputs(ports: u16, inputs: u16, width: u8, text: &mut [u8]) -> usize
    requires { longest_port_line * inputs ≤ length text.old }
    ensures wrote { Wrote text.old text.new result (lines (input_line ports) 0 (replicate inputs width)) }
    ensures upper_bound { result ≤ longest_port_line * inputs }
{
    write_lines(
        inputs,
        |column, part| verilog_lines::write_input(ports, column, width, part),
        text,
    )
}

// The ports of the outputs.
fn write_outputs(netlist: &Netlist, text: &mut [u8]) -> usize
    requires { longest_port_line * netlist.now.head.m ≤ length text.old }
    ensures wrote { Wrote text.old text.new result (lines (output_line (netlist.now.head.n + netlist.now.head.m) netlist.now.head.n) 0 (rows netlist.now.bytes.now)) }
    ensures upper_bound { result ≤ longest_port_line * netlist.now.head.m }
{
    let n = netlist.head.n as u16;
    let m = netlist.head.m as u16;
    let ports = n + m;
    write_lines(
        m,
        |row, part| {
            verilog_lines::write_output(ports, n, row, netlist.output(row as usize), part)
        },
        text,
    )
}

// The wires of the operations, in room for their assignments.
fn write_wires(netlist: &Netlist, text: &mut [u8]) -> usize
    requires { longest_wire_assignment * netlist.now.head.operations ≤ length text.old }
    ensures wrote { Wrote text.old text.new result (lines wire_line netlist.now.head.n (wires netlist.now.bytes.now)) }
    ensures upper_bound { result ≤ longest_wire_assignment * netlist.now.head.operations }
{
    let n = netlist.head.n as u16;
    write_lines(
        netlist.head.operations,
        |k, part| verilog_lines::write_wire(n + k, netlist.operation(k as usize), part),
        text,
    )
}

// The assignments to them.
fn write_wire_assignments(netlist: &Netlist, text: &mut [u8]) -> usize
    requires { longest_wire_assignment * netlist.now.head.operations ≤ length text.old }
    ensures wrote { Wrote text.old text.new result (lines (wire_assignment netlist.now.head.n) netlist.now.head.n (wires netlist.now.bytes.now)) }
    ensures upper_bound { result ≤ longest_wire_assignment * netlist.now.head.operations }
{
    let n = netlist.head.n as u16;
    write_lines(
        netlist.head.operations,
        |k, part| {
            let operation = netlist.operation(k as usize);
            verilog_lines::write_wire_assignment(n, n + k, operation, part)
        },
        text,
    )
}

// The assignments to the outputs.
fn write_output_assignments(netlist: &Netlist, text: &mut [u8]) -> usize
    requires { longest_output_assignment * netlist.now.head.m ≤ length text.old }
    ensures wrote { Wrote text.old text.new result (lines (output_assignment netlist.now.head.n) 0 (rows netlist.now.bytes.now)) }
    ensures upper_bound { result ≤ longest_output_assignment * netlist.now.head.m }
{
    let n = netlist.head.n as u16;
    write_lines(
        netlist.head.m as u16,
        |row, part| {
            verilog_lines::write_output_assignment(n, row, netlist.output(row as usize), part)
        },
        text,
    )
}

// ---- the module

// Its first line and its ports.
fn write_ports(netlist: &Netlist, text: &mut [u8]) -> usize
    requires { ports_room ≤ length text.old }
    ensures wrote { Wrote text.old text.new result (ports_text (module_of (netlist_in netlist.now.bytes.now))) }
    ensures upper_bound { result ≤ ports_room }
{
    let n = netlist.head.n as u16;
    let ports = n + netlist.head.m as u16;
    let inputs = write_first(ports, text);
    let outputs = inputs + write_inputs(ports, n, netlist.head.width, &mut text[inputs..]);
    let close = outputs + write_outputs(netlist, &mut text[outputs..]);
    close + byte_slices::copy(b");\n", &mut text[close..])
}

// Its wires and all assignments.
fn write_assignments(netlist: &Netlist, text: &mut [u8]) -> usize
    requires { assignments_room ≤ length text.old }
    ensures wrote { Wrote text.old text.new result (assignments_text (module_of (netlist_in netlist.now.bytes.now))) }
    ensures upper_bound { result ≤ assignments_room }
{
    let assigned = write_wires(netlist, text);
    let rows = assigned + write_wire_assignments(netlist, &mut text[assigned..]);
    rows + write_output_assignments(netlist, &mut text[rows..])
}

// Its whole text.
fn write_module(netlist: &Netlist, text: &mut [u8]) -> usize
    requires { room ≤ length text.old }
    ensures { Wrote text.old text.new result (netlist_text (netlist_in netlist.now.bytes.now)) }
{
    let wires = write_ports(netlist, text);
    let end = wires + write_assignments(netlist, &mut text[wires..]);
    end + byte_slices::copy(b"endmodule\n", &mut text[end..])
}

// Bytes that hold every text as its writers ask for them.
const ROOM: usize = 27
    + LONGEST_PORT_LINE * MAX_COLUMNS
    + 2 * LONGEST_OUTPUT_ASSIGNMENT * MAX_ROWS
    + 2 * LONGEST_WIRE_ASSIGNMENT * MAX_OPERATIONS;

// The text of a netlist's module at the start of the lent buffer, and its length.
fn write_text(bytes: &[u8], buffer: &mut [u8]) -> Result<usize, Refused>
    ensures value { answer_of result ≡ verilog_answer bytes.now (length buffer.old) }
    ensures buffer_after { buffer.new ≡ verilog_buffer bytes.now buffer.old }
{
    let netlist = netlist_read::open(bytes)?;
    let mut text: [u8; ROOM] = filled(0);
    let written = write_module(&netlist, &mut text);
    if buffer.len() < written {
        return Err(Refusal::ShortBuffer.at(0));
    }
    Ok(byte_slices::copy(&text[..written], buffer))
}

// The text of a netlist's module at the start of the lent buffer, for any bytes; a refusal leaves the buffer as it was.
pub fn write_verilog(netlist: &[u8], buffer: &mut [u8]) -> VerilogAnswer
    ensures value { result ≡ verilog_answer netlist.now (length buffer.old) }
    ensures buffer_after { buffer.new ≡ verilog_buffer netlist.now buffer.old }
{
    match write_text(netlist, buffer) {
        Ok(written) => VerilogAnswer {
            refusal: 0,
            place: 0,
            written,
        },
        Err(refused) => VerilogAnswer {
            refusal: refused.refusal.number(),
            place: refused.place,
            written: 0,
        },
    }
}
