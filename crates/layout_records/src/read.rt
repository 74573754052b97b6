// Document 01, "Netlist and board machine": a reader of the fields of each kind of record but the head, at its place in bytes that
// hold the record. A record's payload starts 4 bytes behind its place.
ghost use Rattle.std.specs.Prelude.{◌≡◌, ◌+◌, ◌≤◌, length};
ghost use Rattle.layout_rules.specs.Records.{operation_length, operation_of, output_length, output_of, totals_length};
ghost use Rattle.layout_rules.specs.Places.{payload_of, totals_at};

use super::little_endian::word_at;
use layout_rules::{Operation, Output, Totals};

#[tactic(auto, unfolding(layout_rules::specs::Records::operation_of))]
pub fn operation_at(bytes: &[u8], place: usize) -> Operation
    requires { place + operation_length ≤ length bytes.now }
    ensures { result ≡ operation_of (payload_of bytes.now place operation_length) }
{
    let payload = place + 4;
    Operation {
        sign: bytes[payload],
        a: word_at(bytes, payload + 1),
        sa: bytes[payload + 3],
        b: word_at(bytes, payload + 4),
        sb: bytes[payload + 6],
        width: bytes[payload + 7],
    }
}

#[tactic(auto, unfolding(layout_rules::specs::Records::output_of))]
pub fn output_at(bytes: &[u8], place: usize) -> Output
    requires { place + output_length ≤ length bytes.now }
    ensures { result ≡ output_of (payload_of bytes.now place output_length) }
{
    let payload = place + 4;
    Output {
        sign: bytes[payload],
        symbol: word_at(bytes, payload + 1),
        shift: bytes[payload + 3],
        width: bytes[payload + 4],
    }
}

#[tactic(auto, unfolding(layout_rules::specs::Records::totals_of))]
pub fn totals_at(bytes: &[u8], place: usize) -> Totals
    requires { place + totals_length ≤ length bytes.now }
    ensures { result ≡ totals_at bytes.now place }
{
    let payload = place + 4;
    Totals {
        operations: word_at(bytes, payload),
        depth: word_at(bytes, payload + 2),
    }
}
