// Document 01, "Netlist and board machine": the netlist's records, written one after another into the lent buffer, with widths over
// samples of s bits and depth. Rests on `layout_records`, `layout_head`, `board_width`, `board_tables`, `compile_lists`
// and `arrays`.
#![tactic(auto)]

ghost use Rattle.std.specs.Prelude.{◌≡◌, ◌≤◌, ◌<◌, length, drop};
ghost use mathlib.Core.List.{[], ◌++◌, flat_map, map};
ghost use Rattle.limits.specs.Limits.{max_columns, max_operations, max_symbols};
ghost use Rattle.limits.specs.Size.{SampleWidth};
ghost use Rattle.layout_rules.specs.Records.{head_length_of, operation_length, operation_bytes, output_bytes, netlist_bytes};
ghost use Rattle.layout_rules.specs.Places.{operation_place, output_place, netlist_length};
ghost use Rattle.layout_rules.specs.Written.{written};
ghost use Rattle.board_rules.specs.Machine.{depth};
ghost use Rattle.board_rules.specs.Width.{width};
ghost use Rattle.board_rules.specs.Table.{forms_length, operation_row, form_appended, HoldsForms, SmallForms, SmallRange};
ghost use Rattle.compile_lists.specs.Lists.{operations_list, outputs_list};
ghost use Rattle.compile_rules.specs.Compile.{with_width, with_widths};
ghost use Rattle.compile_rules.specs.Compiled.{compiled_limits};
ghost use Rattle.compile_write.specs.Tables.{Writable, EarlierOperations, WritableOutputs, EarlierOutputs, with_table_width, recorded_netlist};

use arrays::filled;
use board_rules::FORMS_LENGTH;
use compile_lists::operations::Operations;
use compile_lists::outputs::Outputs;
use layout_records::places::{operation_place, output_place};
use layout_rules::{Head, Operation, Output, Totals};
use limits::MAX_SYMBOLS;

// What each record is written by: how many inputs there are, how long the head is, and how many bits a sample has.
#[derive(Clone, Copy)]
struct Layout {
    n: usize,
    head: usize,
    sample_width: u8,
    ghost columns: { n ≤ max_columns },
    ghost place: { head < 65536 },
    ghost width: { SampleWidth sample_width },
}

// The coefficients of one operation into the row of its symbol, and its record, with its width, at the start of the lent part.
fn write_operation(
    buffer: &mut [u8],
    forms: &mut [i64; FORMS_LENGTH],
    o: Operation,
    symbol: usize,
    layout: Layout,
)
    requires symbol_lt_max_symbols { symbol < max_symbols }
    requires a_lt_symbol { (o.a < symbol) × (o.b < symbol) }
    requires small_forms { SmallForms forms.old layout.n o × SmallRange layout.sample_width (operation_row forms.old layout.n o) }
    requires forms_len { (length forms.old ≡ forms_length) × (operation_length ≤ length buffer.old) }
    ensures forms_after { forms.new ≡ form_appended forms.old layout.n o symbol }
    ensures buffer_after { buffer.new ≡ operation_bytes (with_width (width layout.sample_width (operation_row forms.old layout.n o)) o) ++ drop operation_length buffer.old }
{
    board_tables::append_form(forms, o, symbol, layout.n);
    let width = board_width::entry_width(forms, symbol, layout.n, layout.sample_width);
    layout_records::write::write_operation(buffer, Operation { width, ..o });
}

// All operations, behind the head.
fn write_operations(
    buffer: &mut [u8],
    forms: &mut [i64; FORMS_LENGTH],
    operations: Operations,
    layout: Layout,
)
    requires writable { Writable (compiled_limits layout.sample_width) layout.n (operations_list operations) × HoldsForms layout.n [] forms.old }
    requires operations_in_bounds { operation_place layout.head (length (operations_list operations)) ≤ length buffer.old }
    ensures holds_forms { HoldsForms layout.n (operations_list operations) forms.new }
    ensures buffer_after { buffer.new ≡ written buffer.old layout.head (flat_map operation_bytes (with_widths layout.sample_width layout.n (operations_list operations) layout.n (operations_list operations))) }
{
    for (k, o) in operations.as_slice().iter().enumerate() {
        let place = operation_place(layout.head, k);
        write_operation(&mut buffer[place..], forms, *o, layout.n + k, layout);
    }
}

// All outputs, behind the head and so many operations, each with the width of its coefficients in the table.
fn write_outputs(
    buffer: &mut [u8],
    forms: &[i64; FORMS_LENGTH],
    outputs: Outputs,
    operations: usize,
    layout: Layout,
)
    requires writable_outputs { WritableOutputs layout.sample_width forms.now layout.n (outputs_list outputs) }
    requires operations_le_max_operations { (operations ≤ max_operations) × (output_place layout.head operations (length (outputs_list outputs)) ≤ length buffer.old) }
    ensures { buffer.new ≡ written buffer.old (operation_place layout.head operations) (flat_map output_bytes (map (with_table_width layout.sample_width layout.n forms.now) (outputs_list outputs))) }
{
    for (i, o) in outputs.as_slice().iter().enumerate() {
        let width = board_width::output_width(forms, *o, layout.n, layout.sample_width);
        let at = output_place(layout.head, operations, i);
        layout_records::write::write_output(&mut buffer[at..], Output { width, ..*o });
    }
}

// The netlist's depth: the largest of all operations.
fn depth_of(operations: Operations, n: usize) -> u16
    requires { EarlierOperations n (operations_list operations) }
    ensures { result ≡ depth n (operations_list operations) }
{
    let mut depths: [u16; MAX_SYMBOLS] = filled(0);
    let mut largest = 0u16;
    for (k, o) in operations.as_slice().iter().enumerate() {
        let depth = board_tables::operation_depth(&depths, *o);
        depths[n + k] = depth;
        largest = largest.max(depth);
    }
    largest
}

// The whole netlist, for samples of s bits, record by record from the buffer's start; hands back its depth.
pub fn write_netlist(
    buffer: &mut [u8],
    operations: Operations,
    outputs: Outputs,
    m: u8,
    n: u8,
    s: u8,
) -> u16
    requires sample_width { SampleWidth s }
    requires writable { Writable (compiled_limits s) n (operations_list operations) × EarlierOutputs (compiled_limits s) n (operations_list operations) (outputs_list outputs) }
    requires outputs_in_bounds { netlist_length (head_length_of s) (length (operations_list operations)) (length (outputs_list outputs)) ≤ length buffer.old }
    ensures value { result ≡ depth n (operations_list operations) }
    ensures buffer_after { buffer.new ≡ written buffer.old 0 (netlist_bytes (recorded_netlist s m n (operations_list operations) (outputs_list outputs))) }
{
    let count = operations.count();
    let head = Head {
        m,
        n,
        operations: count as u16,
        width: s,
    };
    layout_head::write_head(buffer, head);
    let layout = Layout {
        n: n as usize,
        head: layout_head::head_length(s),
        sample_width: s,
    };
    let mut forms: [i64; FORMS_LENGTH] = filled(0);
    board_tables::start_forms(&mut forms, layout.n);
    write_operations(buffer, &mut forms, operations, layout);
    write_outputs(buffer, &forms, outputs, count, layout);
    let depth = depth_of(operations, layout.n);
    let totals = Totals {
        operations: count as u16,
        depth,
    };
    let end = output_place(layout.head, count, outputs.count());
    layout_records::write::write_totals(&mut buffer[end..], totals);
    depth
}
