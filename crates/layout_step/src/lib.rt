// Document 01, "Reading, checking, running": the step over a record, as `layout_rules` has it. Rests on `layout_records` and `refusals`.
#![tactic(auto)]

ghost use Rattle.std.specs.Prelude.{◌≡◌, IfOk};
ghost use Rattle.layout_rules.specs.Step.{step_refusal, step_numbers, payload_at, payload_start, numbers_of};
ghost use Rattle.layout_step.specs.Header.{HeaderAt};
ghost use Rattle.refusals.specs.Numbers.{number_of};

use layout_records::little_endian::word_at;
use layout_rules::{StepAnswer, StepNumbers};
use refusals::Refusal;

// What a record begins with: its kind, and its length, which counts the whole record. The kind is the record's two bytes, any of 65,536,
// by `HeaderAt`: a reader tests it.
#[derive(Clone, Copy)]
pub struct Header {
    pub kind: u16,
    pub length: usize,
}

// The header of the record at a place, for any bytes and any place. Where it is accepted, the whole record is there.
#[tactic(auto, unfolding(layout_rules::specs::Step::step_refusal))]
pub fn header_at(bytes: &[u8], place: usize) -> Result<Header, Refusal>
    ensures refusal { number_of result ≡ step_refusal bytes.now place }
    ensures value { IfOk result (λ header. HeaderAt bytes.now place header) }
{
    let remaining = bytes.len().saturating_sub(place);
    if remaining < 4 {
        return Err(Refusal::ShortRecord);
    }
    let length = word_at(bytes, place) as usize;
    if remaining < length {
        return Err(Refusal::ShortRecord);
    }
    if length < 4 {
        return Err(Refusal::UnexpectedRecord);
    }
    let kind = word_at(bytes, place + 2);
    Ok(Header { kind, length })
}

// The step's numbers, for any bytes and any place. The C interface and `step_numbers` have the refusal as a number.
#[tactic(auto, unfolding(layout_rules::specs::Step::step_numbers))]
pub fn step_numbers(bytes: &[u8], place: usize) -> StepNumbers
    ensures { result ≡ step_numbers bytes.now place }
{
    match header_at(bytes, place) {
        Ok(header) => StepNumbers {
            refusal: 0,
            place: 0,
            kind: header.kind,
            next: place + header.length,
        },
        Err(refusal) => StepNumbers {
            refusal: refusal.number(),
            place,
            kind: 0,
            next: 0,
        },
    }
}

// The record's payload as a part of the lent bytes, empty where the step is refused.
#[tactic(auto, unfolding(layout_rules::specs::Step::payload_at, layout_rules::specs::Step::payload_start))]
fn payload<'a>(bytes: &'a [u8], place: usize) -> &'a [u8]
    ensures { (result.now ≡ payload_at bytes.now place) × (result.ref_ptr ≡ payload_start bytes.now place bytes.entry.ref_ptr) }
{
    match header_at(bytes, place) {
        Ok(header) => &bytes[place + 4..place + header.length],
        Err(_) => &bytes[0..0],
    }
}

// The step over the record at a place, for any bytes and any place.
pub fn step<'a>(bytes: &'a [u8], place: usize) -> StepAnswer<'a>
    ensures { (numbers_of result ≡ step_numbers bytes.now place) × (result.payload.now ≡ payload_at bytes.now place) × (result.payload.ref_ptr ≡ payload_start bytes.now place bytes.entry.ref_ptr) }
{
    let numbers = step_numbers(bytes, place);
    let part = payload(bytes, place);
    StepAnswer {
        refusal: numbers.refusal,
        place: numbers.place,
        kind: numbers.kind,
        next: numbers.next,
        payload: part,
    }
}
