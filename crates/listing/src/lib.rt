// Document 01, "Programs": the text that the program list-bank prints for a netlist's bytes, as `listing_rules` has it. Rests on
// `listing_lines`, `layout_records` and `layout_head`. The bytes are a netlist's by their length alone, and no `Netlist`: the counts come
// from compile's answer.
#![tactic(auto)]

ghost use Rattle.std.specs.Prelude.{◌≡◌, ◌+◌, ◌*◌, ◌<◌, ◌≤◌, length};
ghost use Rattle.layout_rules.specs.Places.{operation_place, output_place, head_length_in, first_operations, first_outputs};
ghost use Rattle.listing_rules.specs.Listing.{operation_line, output_line};
ghost use Rattle.listing_rules.specs.Records.{listing_of, longest_operation_line, longest_output_line, room};
ghost use Rattle.text.specs.Text.{lines};
ghost use Rattle.text.specs.Wrote.{Wrote};

use layout_head::due_length;
use layout_records::places::{operation_place, output_place};
use layout_records::read::{operation_at, output_at};
use listing_lines::{write_counts, write_operation, write_output};
use listing_rules::Counts;
use text::write_lines;

// The lines of a netlist's operations, behind its head of so many bytes, with symbols from the number of inputs on.
fn write_operations(
    inputs: u16,
    operations: u16,
    head: usize,
    netlist: &[u8],
    text: &mut [u8],
) -> usize
    requires operations_bound { inputs + operations < 65536 }
    requires head_value { (head ≡ head_length_in netlist.now) × (operation_place head operations ≤ length netlist.now) }
    requires operations_in_bounds { longest_operation_line * operations ≤ length text.old }
    ensures wrote { Wrote text.old text.new result (lines operation_line inputs (first_operations netlist.now operations)) }
    ensures upper_bound { result ≤ longest_operation_line * operations }
{
    write_lines(
        operations,
        |k, part| {
            let place = operation_place(head, k as usize);
            write_operation(inputs + k, operation_at(netlist, place), part)
        },
        text,
    )
}

// The lines of a netlist's outputs, behind its head of so many bytes and its operations, with rows from 0 on.
fn write_outputs(
    operations: u16,
    outputs: u16,
    head: usize,
    netlist: &[u8],
    text: &mut [u8],
) -> usize
    requires head_value { (head ≡ head_length_in netlist.now) × (output_place head operations outputs ≤ length netlist.now) }
    requires outputs_in_bounds { longest_output_line * outputs ≤ length text.old }
    ensures wrote { Wrote text.old text.new result (lines output_line 0 (first_outputs netlist.now operations outputs)) }
    ensures upper_bound { result ≤ longest_output_line * outputs }
{
    write_lines(
        outputs,
        |row, part| {
            let place = output_place(head, operations as usize, row as usize);
            write_output(row, output_at(netlist, place), part)
        },
        text,
    )
}

// The whole text of a netlist: its counts, its operations, its outputs.
pub fn write_listing(counts: Counts, netlist: &[u8], text: &mut [u8]) -> usize
    requires operations_bound { counts.inputs + counts.operations < 65536 }
    requires outputs_in_bounds { output_place (head_length_in netlist.now) counts.operations counts.outputs ≤ length netlist.now }
    requires outputs_in_bounds_2 { room counts.operations counts.outputs ≤ length text.old }
    ensures wrote { Wrote text.old text.new result (listing_of counts netlist.now) }
    ensures upper_bound { result ≤ room counts.operations counts.outputs }
{
    let head = due_length(netlist);
    let operations = write_counts(counts, text);
    let outputs = operations
        + write_operations(
            counts.inputs,
            counts.operations,
            head,
            netlist,
            &mut text[operations..],
        );
    outputs
        + write_outputs(
            counts.operations,
            counts.outputs,
            head,
            netlist,
            &mut text[outputs..],
        )
}
