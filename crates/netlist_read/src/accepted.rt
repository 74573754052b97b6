// A netlist that read accepts: its bytes, and what its head and its totals say. Whoever has one may go through its records without a test:
// its ghost fields say that read accepts the bytes. `open` and `open_with` make it.
ghost use Rattle.std.specs.Prelude.{◌≡◌, ◌<◌};
ghost use Rattle.layout_rules.specs.Places.{head_length_in, head_at, operation_at, output_at, totals_at, totals_place_in};
ghost use Rattle.netlist_read.specs.Tables.{NetlistRead};

use layout_records::places::{operation_place, output_place};
use layout_records::read;
use layout_rules::{Head, Operation, Output, Totals};

#[derive(Clone, Copy)]
pub struct Netlist<'a> {
    pub bytes: &'a [u8],
    pub head: Head,
    pub totals: Totals,
    pub(crate) start: usize, // where the operations stand, behind the head
    ghost read: { NetlistRead bytes.now },
    ghost head_read: { head ≡ head_at bytes.now },
    ghost totals_read: { totals ≡ totals_at bytes.now (totals_place_in bytes.now) },
    ghost start_read: { start ≡ head_length_in bytes.now },
}

impl<'a> Netlist<'a> {
    // How many rows, columns and operations.
    pub fn m(&self) -> usize
        ensures { result ≡ self.now.head.m }
    {
        self.head.m as usize
    }

    pub fn n(&self) -> usize
        ensures { result ≡ self.now.head.n }
    {
        self.head.n as usize
    }

    pub fn operations(&self) -> usize
        ensures { result ≡ self.now.head.operations }
    {
        self.head.operations as usize
    }

    pub fn operation(&self, k: usize) -> Operation
        requires { k < self.now.head.operations }
        ensures { result ≡ operation_at self.now.bytes.now k }
    {
        read::operation_at(self.bytes, operation_place(self.start, k))
    }

    // The output of a row.
    pub fn output(&self, i: usize) -> Output
        requires { i < self.now.head.m }
        ensures { result ≡ output_at self.now.bytes.now self.now.head.operations i }
    {
        let operations = self.operations();
        read::output_at(self.bytes, output_place(self.start, operations, i))
    }
}
