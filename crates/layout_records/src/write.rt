// Document 01, "Netlist and board machine": a writer for each kind of record but the head. Each is lent the part of the output buffer
// that starts at the current place, and leaves what stands behind its record as it was.
ghost use Rattle.std.specs.Prelude.{◌≡◌, ◌++◌, ◌≤◌, length, drop};
ghost use Rattle.layout_rules.specs.Records.{operation_length, operation_bytes, output_length, output_bytes, totals_length, totals_bytes};

use super::places::{
    OPERATION_KIND, OPERATION_LENGTH, OUTPUT_KIND, OUTPUT_LENGTH, TOTALS_KIND, TOTALS_LENGTH,
};
use layout_rules::{Operation, Output, Totals};

#[tactic(auto, unfolding(layout_rules::specs::Records::operation_payload))]
pub fn write_operation(buf: &mut [u8], operation: Operation)
    requires { operation_length ≤ length buf.old }
    ensures { buf.new ≡ operation_bytes operation ++ drop operation_length buf.old }
{
    let [a_low, a_high] = operation.a.to_le_bytes();
    let [b_low, b_high] = operation.b.to_le_bytes();
    let record = [
        OPERATION_LENGTH as u8,
        0,
        OPERATION_KIND as u8,
        0,
        operation.sign,
        a_low,
        a_high,
        operation.sa,
        b_low,
        b_high,
        operation.sb,
        operation.width,
    ];
    byte_slices::copy(&record, buf);
}

#[tactic(auto, unfolding(layout_rules::specs::Records::output_payload))]
pub fn write_output(buf: &mut [u8], output: Output)
    requires { output_length ≤ length buf.old }
    ensures { buf.new ≡ output_bytes output ++ drop output_length buf.old }
{
    let [symbol_low, symbol_high] = output.symbol.to_le_bytes();
    let record = [
        OUTPUT_LENGTH as u8,
        0,
        OUTPUT_KIND as u8,
        0,
        output.sign,
        symbol_low,
        symbol_high,
        output.shift,
        output.width,
    ];
    byte_slices::copy(&record, buf);
}

#[tactic(auto, unfolding(layout_rules::specs::Records::totals_payload))]
pub fn write_totals(buf: &mut [u8], totals: Totals)
    requires { totals_length ≤ length buf.old }
    ensures { buf.new ≡ totals_bytes totals ++ drop totals_length buf.old }
{
    let [operations_low, operations_high] = totals.operations.to_le_bytes();
    let [depth_low, depth_high] = totals.depth.to_le_bytes();
    let record = [
        TOTALS_LENGTH as u8,
        0,
        TOTALS_KIND as u8,
        0,
        operations_low,
        operations_high,
        depth_low,
        depth_high,
    ];
    byte_slices::copy(&record, buf);
}
