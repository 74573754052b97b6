// Document 01, "Reading, checking, running" and "Why a record was declined": reading a netlist, refusals 7 to 12 record by record, as
// `netlist_rules` has it. Rests on `netlist_tests`, `layout_head`, `board_width`, `board_tables`, `arrays` and `refusals`, and sees
// nothing of the elimination.
#![tactic(auto)]

pub mod accepted; // accepted.rt: a netlist that read accepts
mod records; // records.rt: the records behind the head, tested in their order

ghost use Rattle.std.specs.Prelude.{◌≡◌, length, IfOk, IfErr};
ghost use Rattle.limits.specs.Limits.{max_symbols};
ghost use Rattle.board_rules.specs.Table.{filled, forms_length};
ghost use Rattle.netlist_rules.specs.Read.{refused, read_netlist, read_answer, sample_width_answer};
ghost use Rattle.netlist_read.specs.Tables.{DepthsHeld, NetlistHeld};
ghost use Rattle.refusals.specs.Numbers.{number};

use accepted::Netlist;
use arrays::filled;
use board_rules::FORMS_LENGTH;
use layout_head::{due_length, head_at};
use limits::MAX_SYMBOLS;
use netlist_rules::{ReadAnswer, SampleWidthAnswer};
use netlist_tests::head_refusal;
use records::Records;
use refusals::Refused;

// The netlist in the bytes, for any bytes. Where it is accepted, the tables hold the coefficients and the depths of every entry. They are
// lent apart, since most callers go on with one of them alone.
pub fn open_with<'a>(
    bytes: &'a [u8],
    forms: &mut [i64; FORMS_LENGTH],
    depths: &mut [u16; MAX_SYMBOLS],
) -> Result<Netlist<'a>, Refused>
    requires { (length forms.old ≡ forms_length) × (depths.old ≡ filled max_symbols 0) }
    ensures ok { IfOk result (λ net. net.bytes.now ≡ bytes.now) }
    ensures held { IfOk result (λ net. NetlistHeld bytes.now forms.new × DepthsHeld bytes.now net.head.n net.head.operations depths.new) }
    ensures err { IfErr result (λ r. read_netlist bytes.now ≡ refused (number r.refusal) r.place) }
{
    if let Err(refusal) = head_refusal(bytes) {
        return Err(refusal.at(0));
    }
    let records = Records {
        bytes,
        head: head_at(bytes),
        start: due_length(bytes),
    };
    records.netlist(forms, depths)
}

// The netlist in the bytes, with tables of its own.
pub fn open<'a>(bytes: &'a [u8]) -> Result<Netlist<'a>, Refused>
    ensures ok { IfOk result (λ net. net.bytes.now ≡ bytes.now) }
    ensures err { IfErr result (λ r. read_netlist bytes.now ≡ refused (number r.refusal) r.place) }
{
    let mut forms: [i64; FORMS_LENGTH] = filled(0);
    let mut depths: [u16; MAX_SYMBOLS] = filled(0);
    open_with(bytes, &mut forms, &mut depths)
}

// A netlist's m, n, operations and depth, for any bytes.
pub fn read(bytes: &[u8]) -> ReadAnswer
    ensures { result ≡ read_answer bytes.now }
{
    match open(bytes) {
        Ok(netlist) => ReadAnswer {
            refusal: 0,
            place: 0,
            m: netlist.head.m,
            n: netlist.head.n,
            operations: netlist.head.operations,
            depth: netlist.totals.depth,
        },
        Err(refused) => ReadAnswer::refused(refused.refusal.number(), refused.place),
    }
}

// The sample width of a netlist's head, for any bytes.
pub fn sample_width(bytes: &[u8]) -> SampleWidthAnswer
    ensures { result ≡ sample_width_answer bytes.now }
{
    match open(bytes) {
        Ok(netlist) => SampleWidthAnswer {
            refusal: 0,
            place: 0,
            width: netlist.head.width,
        },
        Err(refused) => SampleWidthAnswer {
            refusal: refused.refusal.number(),
            place: refused.place,
            width: 0,
        },
    }
}
