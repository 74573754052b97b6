// Demand 3: compile, read and run, called one after another, with the claim of `bank_rules` as the promise. Rests on `compile`,
// `netlist_read` and `netlist_run`, which are joined here by their contracts alone.
#![tactic(auto)]

ghost use Rattle.std.specs.Prelude.{◌≡◌};
ghost use Rattle.compile_rules.specs.Compile.{compile_buffer};
ghost use Rattle.bank_rules.specs.Claim.{Given, Claim, answers_of, outputs_after};

use bank_rules::Answers;

// Compile for samples of a width, then read and run on the part that compile wrote.
pub fn compile_read_run(
    matrix: &[u8],
    sample_width: u8,
    buffer: &mut [u8],
    samples: &[i32],
    outputs: &mut [i64],
) -> Answers
    ensures value { result ≡ answers_of sample_width matrix.now buffer.old samples.now outputs.old }
    ensures buffer_after { buffer.new ≡ compile_buffer sample_width matrix.now buffer.old }
    ensures outputs_after { outputs.new ≡ outputs_after sample_width matrix.now buffer.old samples.now outputs.old }
    ensures claim { Given sample_width matrix.now buffer.old samples.now outputs.old → Claim sample_width matrix.now buffer.new samples.now outputs.new result }
{
    let compile = compile::compile(matrix, sample_width, buffer);
    let written = compile.written;
    let bytes = &buffer[..written];
    let read = netlist_read::read(bytes);
    let run = netlist_run::run(bytes, samples, outputs);
    Answers { compile, read, run }
}
