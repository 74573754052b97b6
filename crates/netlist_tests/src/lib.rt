// Document 01, "Why a record was declined": the tests of one record of a netlist, as `netlist_rules` has them. Rests on `layout_head`,
// `layout_step` and `refusals`.
#![tactic(auto)]

ghost use Rattle.std.specs.Prelude.{◌≡◌, ◌+◌, ◌≤◌, length, OnOk};
ghost use Rattle.layout_rules.specs.Places.{head_length_in};
ghost use Rattle.netlist_rules.specs.Read.{record_refusal, head_in_range, width_in_range, head_refusal, operation_in_range, output_in_range, width_right};
ghost use Rattle.refusals.specs.Numbers.{number_of};

use layout_head::{due_kind, due_length, head_at};
use layout_records::little_endian::word_at;
use layout_records::places::WIDTH_HEAD_KIND;
use layout_rules::{Head, Operation, Output};
use limits::{MAX_OPERATIONS, MAX_WIDTH, UNSTATED_WIDTH};
use refusals::Refusal;
use term::Term;

// The record due at a place: 7, or 8 where its kind or length is not the expected one. Where it is accepted, all of it is there.
#[tactic(auto, unfolding(netlist_rules::specs::Read::record_refusal))]
pub fn record_refusal(bytes: &[u8], place: usize, kind: u16, size: usize) -> Result<(), Refusal>
    ensures refusal { number_of result ≡ record_refusal bytes.now place kind size }
    ensures whole { OnOk result (place + size ≤ length bytes.now) }
{
    let header = layout_step::header_at(bytes, place)?;
    if header.kind != kind || header.length != size {
        return Err(Refusal::UnexpectedRecord);
    }
    Ok(())
}

// m and n of a matrix record and not too many operations, or all three 0: a bank of no rows.
fn head_in_range(h: Head) -> bool
    ensures { result ≡ head_in_range h }
{
    if limits::size_outside(h.m, h.n) {
        h.m == 0 && h.n == 0 && h.operations == 0
    } else {
        h.operations as usize <= MAX_OPERATIONS
    }
}

// The operation's operands stand below its symbol.
pub fn operation_in_range(o: Operation, symbol: usize) -> bool
    ensures { result ≡ operation_in_range symbol o }
{
    o.sign <= 1
        && o.sa <= Term::MAX_EXPONENT
        && o.sb <= Term::MAX_EXPONENT
        && (o.a as usize) < symbol
        && (o.b as usize) < symbol
}

// The output's symbol stands below the number of symbols; a zero output has symbol 0, shift 0, width 1.
pub fn output_in_range(o: Output, symbols: usize) -> bool
    ensures { result ≡ output_in_range symbols o }
{
    o.sign <= 2
        && o.shift <= Term::MAX_EXPONENT
        && (o.symbol as usize) < symbols
        && (o.sign < 2 || o.symbol == 0 && o.shift == 0 && o.width == 1)
}

// The recorded width is the width, which is at most the widest.
pub fn width_right(recorded: u8, width: u8) -> bool
    ensures { result ≡ width_right recorded width }
{
    recorded == width && width <= MAX_WIDTH
}

// The sample width of a head of a kind: 8 to 24, and not 16 where it is stated.
fn width_in_range(kind: u16, width: u8) -> bool
    ensures { result ≡ width_in_range kind width }
{
    !limits::sample_width_outside(width) && !(kind == WIDTH_HEAD_KIND && width == UNSTATED_WIDTH)
}

// Of a netlist's head: 7, 8 or 9. Under 4 bytes say no kind. Where it is accepted, all of it is there.
#[tactic(auto, unfolding(netlist_rules::specs::Read::head_refusal))]
pub fn head_refusal(bytes: &[u8]) -> Result<(), Refusal>
    ensures refusal { number_of result ≡ head_refusal bytes.now }
    ensures whole { OnOk result (head_length_in bytes.now ≤ length bytes.now) }
{
    if bytes.len() < 4 {
        return Err(Refusal::ShortRecord);
    }
    record_refusal(bytes, 0, due_kind(bytes), due_length(bytes))?;
    let head = head_at(bytes);
    if !head_in_range(head) || !width_in_range(word_at(bytes, 2), head.width) {
        return Err(Refusal::FieldOutOfRange);
    }
    Ok(())
}
