// Document 01, "Netlist and board machine": the head of a netlist, read and written; which of the two heads is due. Rests on
// `layout_records`.
#![tactic(auto)]

ghost use Rattle.std.specs.Prelude.{◌≡◌, ◌++◌, ◌≤◌, length, drop};
ghost use Rattle.layout_rules.specs.Records.{head_kind_of, head_length_of, head_bytes};
ghost use Rattle.layout_rules.specs.Places.{head_kind_in, head_length_in, head_at};

use layout_records::little_endian::word_at;
use layout_records::places::{HEAD_KIND, HEAD_LENGTH, WIDTH_HEAD_KIND, WIDTH_HEAD_LENGTH};
use layout_rules::Head;
use limits::UNSTATED_WIDTH;

// The kind and length of a head, as numbers: `head_kind_in` and `head_length_in` say them so.
#[derive(Drop)]
struct HeadForm {
    kind: u16,
    length: usize,
}

// The head for samples of 16 bits, and the one that states a width.
const UNSTATED: HeadForm = HeadForm {
    kind: HEAD_KIND,
    length: HEAD_LENGTH,
};

const STATED: HeadForm = HeadForm {
    kind: WIDTH_HEAD_KIND,
    length: WIDTH_HEAD_LENGTH,
};

// ---- reading; that 4 bytes are there stays a clause, since it is a bound of a plain number

// The head that is due.
#[tactic(auto, unfolding(layout_rules::specs::Places::head_kind_in, layout_rules::specs::Places::head_length_in))]
fn due(bytes: &[u8]) -> HeadForm
    requires { 4 ≤ length bytes.now }
    ensures kind { result.kind ≡ head_kind_in bytes.now }
    ensures length { result.length ≡ head_length_in bytes.now }
{
    if word_at(bytes, 2) == WIDTH_HEAD_KIND {
        STATED
    } else {
        UNSTATED
    }
}

pub fn due_kind(bytes: &[u8]) -> u16
    requires { 4 ≤ length bytes.now }
    ensures { result ≡ head_kind_in bytes.now }
{
    due(bytes).kind
}

pub fn due_length(bytes: &[u8]) -> usize
    requires { 4 ≤ length bytes.now }
    ensures { result ≡ head_length_in bytes.now }
{
    due(bytes).length
}

// The sample width: where none is stated, 16.
#[tactic(auto, unfolding(layout_rules::specs::Records::head_of, layout_rules::specs::Places::head_length_in))]
fn head_width(bytes: &[u8]) -> u8
    requires { head_length_in bytes.now ≤ length bytes.now }
    ensures { result ≡ (head_at bytes.now).width }
{
    if due_length(bytes) == WIDTH_HEAD_LENGTH {
        bytes[8]
    } else {
        UNSTATED_WIDTH
    }
}

// The fields of the head, in bytes that hold it.
#[tactic(auto, unfolding(layout_rules::specs::Records::head_of, layout_rules::specs::Places::head_length_in))]
pub fn head_at(bytes: &[u8]) -> Head
    requires { head_length_in bytes.now ≤ length bytes.now }
    ensures { result ≡ head_at bytes.now }
{
    Head {
        m: bytes[4],
        n: bytes[5],
        operations: word_at(bytes, 6),
        width: head_width(bytes),
    }
}

// ---- writing

// The head of a netlist for samples of so many bits.
#[tactic(auto, unfolding(layout_rules::specs::Records::head_kind_of, layout_rules::specs::Records::head_length_of))]
fn for_width(width: u8) -> HeadForm
    ensures kind { result.kind ≡ head_kind_of width }
    ensures length { result.length ≡ head_length_of width }
{
    if width == UNSTATED_WIDTH {
        UNSTATED
    } else {
        STATED
    }
}

pub fn head_length(width: u8) -> usize
    ensures { result ≡ head_length_of width }
{
    for_width(width).length
}

// The head, at the start of the lent buffer; it ends before the width where that is 16.
#[tactic(auto, unfolding(layout_rules::specs::Records::head_kind_of, layout_rules::specs::Records::head_length_of, layout_rules::specs::Records::head_payload))]
pub fn write_head(buffer: &mut [u8], head: Head)
    requires { head_length_of head.width ≤ length buffer.old }
    ensures { buffer.new ≡ head_bytes head ++ drop (head_length_of head.width) buffer.old }
{
    let form = for_width(head.width);
    let [operations_low, operations_high] = head.operations.to_le_bytes();
    let record = [
        form.length as u8,
        0,
        form.kind as u8,
        0,
        head.m,
        head.n,
        operations_low,
        operations_high,
        head.width,
    ];
    byte_slices::copy(&record[..form.length], buffer);
}
