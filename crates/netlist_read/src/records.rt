// The records behind a head that is accepted, tested one after another: operations, outputs, totals, and nothing behind them. Coefficients
// and depths of the entries go into lent tables.
ghost use Rattle.std.specs.Prelude.{◌≡◌, ◌≤◌, ◌<◌, suc, length, take, OnOk, IfOk, IfErr};
ghost use Rattle.limits.specs.Limits.{max_symbols};
ghost use Rattle.layout_rules.specs.Places.{head_length_in, head_at, first_operations, first_outputs, totals_at};
ghost use Rattle.layout_rules.specs.Records.{width_head_length};
ghost use Rattle.board_rules.specs.Machine.{largest};
ghost use Rattle.board_rules.specs.Netlist.{HeadLimits};
ghost use Rattle.board_rules.specs.Table.{filled, forms_length};
ghost use Rattle.netlist_rules.specs.Read.{head_refusal, operation_refusal, output_refusal, totals_refusal, read_operations, read_outputs, read_netlist, refused, accepted};
ghost use Rattle.netlist_rules.specs.Exact.{read_limits};
ghost use Rattle.netlist_read.specs.Tables.{FormsHeld, DepthsHeld, NetlistHeld};
ghost use Rattle.refusals.specs.Numbers.{number, number_of};

use crate::accepted::Netlist;
use board_rules::FORMS_LENGTH;
use layout_records::places::{
    OPERATION_KIND, OPERATION_LENGTH, OUTPUT_KIND, OUTPUT_LENGTH, TOTALS_KIND, TOTALS_LENGTH,
    operation_place, output_place,
};
use layout_records::read::{operation_at, output_at, totals_at};
use layout_rules::{Head, Totals};
use limits::MAX_SYMBOLS;
use netlist_tests::{operation_in_range, output_in_range, record_refusal, width_right};
use refusals::{Refusal, Refused};

#[derive(Clone, Copy)]
pub struct Records<'a> {
    pub bytes: &'a [u8],
    pub head: Head,
    pub start: usize, // where the operations stand, behind the head
    ghost head_due: { head_refusal bytes.now ≡ 0 },
    ghost head_read: { head ≡ head_at bytes.now },
    ghost head_limits: { HeadLimits (read_limits head.width) head },
    ghost start_read: { start ≡ head_length_in bytes.now },
    ghost start_small: { start ≤ width_head_length },
}

impl<'a> Records<'a> {
    // ---- operations

    // Operation k behind the k before it. Where it is accepted, its coefficients and its depth are in the tables.
    fn operation(
        &self,
        k: usize,
        forms: &mut [i64; FORMS_LENGTH],
        depths: &mut [u16; MAX_SYMBOLS],
    ) -> Result<(), Refusal>
        requires k_lt_operations { k < self.now.head.operations }
        requires forms_held { FormsHeld self.now.bytes.now self.now.head.width self.now.head.n k forms.old }
        requires depths_held { DepthsHeld self.now.bytes.now self.now.head.n k depths.old }
        ensures refusal { number_of result ≡ operation_refusal self.now.bytes.now self.now.head.width self.now.head.n (first_operations self.now.bytes.now k) }
        ensures forms_held { OnOk result (FormsHeld self.now.bytes.now self.now.head.width self.now.head.n (suc k) forms.new) }
        ensures depths_held { OnOk result (DepthsHeld self.now.bytes.now self.now.head.n (suc k) depths.new) }
    {
        let place = operation_place(self.start, k);
        record_refusal(self.bytes, place, OPERATION_KIND, OPERATION_LENGTH)?;
        let o = operation_at(self.bytes, place);
        let n = self.head.n as usize;
        let symbol = n + k;
        if !operation_in_range(o, symbol) {
            return Err(Refusal::FieldOutOfRange);
        }
        board_tables::append_form(forms, o, symbol, n);
        let width = board_width::entry_width(forms, symbol, n, self.head.width);
        if !width_right(o.width, width) {
            return Err(Refusal::WrongWidth);
        }
        let depth = board_tables::operation_depth(depths, o);
        depths[symbol] = depth;
        Ok(())
    }

    // All operations of the head's count.
    fn operations(
        &self,
        forms: &mut [i64; FORMS_LENGTH],
        depths: &mut [u16; MAX_SYMBOLS],
    ) -> Result<(), Refused>
        requires forms_held { FormsHeld self.now.bytes.now self.now.head.width self.now.head.n 0 forms.old }
        requires depths_held { DepthsHeld self.now.bytes.now self.now.head.n 0 depths.old }
        ensures ok { OnOk result (read_operations self.now.bytes.now self.now.head ≡ accepted (first_operations self.now.bytes.now self.now.head.operations)) }
        ensures forms_held { OnOk result (FormsHeld self.now.bytes.now self.now.head.width self.now.head.n self.now.head.operations forms.new) }
        ensures depths_held { OnOk result (DepthsHeld self.now.bytes.now self.now.head.n self.now.head.operations depths.new) }
        ensures err { IfErr result (λ r. read_operations self.now.bytes.now self.now.head ≡ refused (number r.refusal) r.place) }
    {
        for k in 0..self.head.operations as usize {
            // Not map_err, whose closure needs a lemma of its own at each such place.
            if let Err(refusal) = self.operation(k, forms, depths) {
                return Err(refusal.at(operation_place(self.start, k)));
            }
        }
        Ok(())
    }

    // ---- outputs

    // Output i, where the operations are read.
    fn output(&self, i: usize, forms: &[i64; FORMS_LENGTH]) -> Result<(), Refusal>
        requires i_lt_m { i < self.now.head.m }
        requires forms_held { FormsHeld self.now.bytes.now self.now.head.width self.now.head.n self.now.head.operations forms.now }
        ensures { number_of result ≡ output_refusal self.now.bytes.now self.now.head.width self.now.head.n (first_operations self.now.bytes.now self.now.head.operations) i }
    {
        let n = self.head.n as usize;
        let operations = self.head.operations as usize;
        let place = output_place(self.start, operations, i);
        record_refusal(self.bytes, place, OUTPUT_KIND, OUTPUT_LENGTH)?;
        let o = output_at(self.bytes, place);
        if !output_in_range(o, n + operations) {
            return Err(Refusal::FieldOutOfRange);
        }
        let width = board_width::output_width(forms, o, n, self.head.width);
        if !width_right(o.width, width) {
            return Err(Refusal::WrongWidth);
        }
        Ok(())
    }

    // All outputs, one per row.
    fn outputs(&self, forms: &[i64; FORMS_LENGTH]) -> Result<(), Refused>
        requires { FormsHeld self.now.bytes.now self.now.head.width self.now.head.n self.now.head.operations forms.now }
        ensures ok { OnOk result (read_outputs self.now.bytes.now self.now.head (first_operations self.now.bytes.now self.now.head.operations) ≡ accepted (first_outputs self.now.bytes.now (length (first_operations self.now.bytes.now self.now.head.operations)) self.now.head.m)) }
        ensures err { IfErr result (λ r. read_outputs self.now.bytes.now self.now.head (first_operations self.now.bytes.now self.now.head.operations) ≡ refused (number r.refusal) r.place) }
    {
        for i in 0..self.head.m as usize {
            if let Err(refusal) = self.output(i, forms) {
                let operations = self.head.operations as usize;
                return Err(refusal.at(output_place(self.start, operations, i)));
            }
        }
        Ok(())
    }

    // ---- totals

    #[tactic(auto, unfolding(netlist_rules::specs::Read::totals_refusal))]
    fn totals(&self, place: usize, depths: &[u16; MAX_SYMBOLS]) -> Result<Totals, Refusal>
        requires { DepthsHeld self.now.bytes.now self.now.head.n self.now.head.operations depths.now }
        ensures refusal { number_of result ≡ totals_refusal self.now.bytes.now place self.now.head (first_operations self.now.bytes.now self.now.head.operations) }
        ensures value { IfOk result (λ totals. totals ≡ totals_at self.now.bytes.now place) }
    {
        record_refusal(self.bytes, place, TOTALS_KIND, TOTALS_LENGTH)?;
        let totals = totals_at(self.bytes, place);
        let symbols = self.head.n as usize + self.head.operations as usize;
        let depth = largest_depth(depths, symbols);
        if totals.operations != self.head.operations || totals.depth != depth {
            return Err(Refusal::WrongTotals);
        }
        Ok(totals)
    }

    // ---- the whole netlist

    // All records, and nothing behind the totals. Where they are accepted, the tables hold the coefficients and the depths of every entry.
    pub fn netlist(
        &self,
        forms: &mut [i64; FORMS_LENGTH],
        depths: &mut [u16; MAX_SYMBOLS],
    ) -> Result<Netlist<'a>, Refused>
        requires { (length forms.old ≡ forms_length) × (depths.old ≡ filled max_symbols 0) }
        ensures ok { IfOk result (λ net. net.bytes.now ≡ self.now.bytes.now) }
        ensures held { IfOk result (λ net. NetlistHeld self.now.bytes.now forms.new × DepthsHeld self.now.bytes.now net.head.n net.head.operations depths.new) }
        ensures err { IfErr result (λ r. read_netlist self.now.bytes.now ≡ refused (number r.refusal) r.place) }
    {
        board_tables::start_forms(forms, self.head.n as usize);
        self.operations(forms, depths)?;
        self.outputs(forms)?;
        let operations = self.head.operations as usize;
        let place = output_place(self.start, operations, self.head.m as usize);
        let totals = match self.totals(place, depths) {
            Ok(totals) => totals,
            Err(refusal) => return Err(refusal.at(place)),
        };
        let end = place + TOTALS_LENGTH;
        if self.bytes.len() > end {
            return Err(Refusal::BytesLeftOver.at(end));
        }
        Ok(Netlist {
            bytes: self.bytes,
            head: self.head,
            totals,
            start: self.start,
        })
    }
}

// The largest of so many depths.
fn largest_depth(depths: &[u16; MAX_SYMBOLS], count: usize) -> u16
    requires { (count ≤ max_symbols) × (length depths.now ≡ max_symbols) }
    ensures { result ≡ largest (take count depths.now) }
{
    let counted = &depths[..count];
    let mut most: u16 = 0;
    // A loop of three lines: the maximum of an iterator proves only by more lemmas than it saves.
    for depth in counted {
        most = most.max(*depth);
    }
    most
}
