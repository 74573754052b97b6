// Document 01, "Netlist and board machine": the kind and length of each record of a netlist, and where it stands behind a head of a
// given length. Lengths and counts have 2 bytes, so no sum wraps; their bounds stay clauses, since they are of plain numbers.
ghost use Rattle.std.specs.Prelude.{◌≡◌, ◌<◌};
ghost use Rattle.layout_rules.specs.Places.{operation_place, output_place, netlist_length};

use limits::{MAX_OPERATIONS, MAX_ROWS};

pub const HEAD_KIND: u16 = 2;

pub const HEAD_LENGTH: usize = 8;

// The head that states a width.
pub const WIDTH_HEAD_KIND: u16 = 6;

pub const WIDTH_HEAD_LENGTH: usize = 9;

pub const OPERATION_KIND: u16 = 3;

pub const OPERATION_LENGTH: usize = 12;

pub const OUTPUT_KIND: u16 = 4;

pub const OUTPUT_LENGTH: usize = 9;

pub const TOTALS_KIND: u16 = 5;

pub const TOTALS_LENGTH: usize = 8;

// "6,137 bytes always suffice."
pub const ENOUGH_BYTES: usize = WIDTH_HEAD_LENGTH
    + OPERATION_LENGTH * MAX_OPERATIONS
    + OUTPUT_LENGTH * MAX_ROWS
    + TOTALS_LENGTH;

pub fn operation_place(head: usize, k: usize) -> usize
    requires { (head < 65536) × (k < 65536) }
    ensures { result ≡ operation_place head k }
{
    head + OPERATION_LENGTH * k
}

// Output i behind so many operations; the totals stand where one more output would.
pub fn output_place(head: usize, operations: usize, i: usize) -> usize
    requires { (head < 65536) × (operations < 65536) × (i < 65536) }
    ensures { result ≡ output_place head operations i }
{
    operation_place(head, operations) + OUTPUT_LENGTH * i
}

pub fn netlist_length(head: usize, operations: usize, outputs: usize) -> usize
    requires { (head < 65536) × (operations < 65536) × (outputs < 65536) }
    ensures { result ≡ netlist_length head operations outputs }
{
    output_place(head, operations, outputs) + TOTALS_LENGTH
}
