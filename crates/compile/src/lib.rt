// Document 01, "Netlist and board machine": compile, from a matrix record and the sample width to the netlist's bytes, as
// `compile_rules` has it. Rests on `compile_plan`, `compile_write`, `compile_lists`, `layout_head`, `layout_matrix` and `refusals`.
#![tactic(auto)]

ghost use Rattle.std.specs.Prelude.{◌≡◌, length};
ghost use Rattle.compile_lists.specs.Lists.{outputs_list};
ghost use Rattle.compile_rules.specs.Compile.{negated_outputs, input_refusal, compile_answer, compile_buffer};
ghost use Rattle.refusals.specs.Numbers.{number_of};

use compile_lists::outputs::Outputs;
use compile_rules::CompileAnswer;
use compile_write::write_netlist;
use layout_records::places::netlist_length;
use refusals::Refusal;

// How many outputs have the sign minus.
fn negated_count(outputs: Outputs) -> u16
    ensures { result ≡ negated_outputs (outputs_list outputs) }
{
    outputs.as_slice().iter().filter(|o| o.sign == 1).count() as u16
}

// Why what is read is declined: 20, then 1 to 5.
#[tactic(auto, unfolding(compile_rules::specs::Compile::input_refusal))]
fn input_refusal(matrix: &[u8], sample_width: u8) -> Result<(), Refusal>
    ensures { number_of result ≡ input_refusal sample_width matrix.now }
{
    if limits::sample_width_outside(sample_width) {
        return Err(Refusal::SampleWidthOutside);
    }
    layout_matrix::matrix_refusal(matrix)
}

// From a matrix record, or no bytes, to the netlist for samples of so many bits, at the start of the lent buffer. Nothing is written
// before it is known that all of it fits. The answer has its refusal as a number since `compile_answer` and the C interface do.
pub fn compile(matrix: &[u8], sample_width: u8, buffer: &mut [u8]) -> CompileAnswer
    ensures value { result ≡ compile_answer sample_width matrix.now (length buffer.old) }
    ensures buffer_after { buffer.new ≡ compile_buffer sample_width matrix.now buffer.old }
{
    if let Err(refusal) = input_refusal(matrix, sample_width) {
        return CompileAnswer::refused(refusal.number());
    }
    let plan = compile_plan::plan(matrix);
    let operations = plan.operations;
    let outputs = plan.outputs;
    let count = operations.count();
    let head = layout_head::head_length(sample_width);
    let size = netlist_length(head, count, outputs.count());
    if buffer.len() < size {
        return CompileAnswer::refused(Refusal::ShortBuffer.number());
    }
    let m = layout_matrix::row_count(matrix);
    let n = layout_matrix::column_count(matrix);
    let depth = write_netlist(buffer, operations, outputs, m, n, sample_width);
    CompileAnswer {
        refusal: 0,
        place: 0,
        written: size,
        operations: count as u16,
        plain: plan.plain as u16,
        divisors: plan.divisors as u16,
        replacements: plan.replacements as u16,
        depth,
        negated: negated_count(outputs),
    }
}
