// Document 01, "Programs": what compile-bank writes for a matrix record and a sample width, the netlist's bytes or the line of the
// refusal. Rests on `compile` and `text`.
#![tactic(auto)]

ghost use Rattle.std.specs.Prelude.{◌≤◌, length};
ghost use Rattle.layout_rules.specs.Places.{enough_bytes};
ghost use Rattle.text.specs.Wrote.{Wrote, PrefixLength};
ghost use Rattle.compile_output.specs.CompileOutput.{compile_output, compile_output_in};

use layout_records::places::ENOUGH_BYTES;

fn write_output(matrix: &[u8], sample_width: u8, output: &mut [u8]) -> usize
    requires { enough_bytes ≤ length output.old }
    ensures { Wrote output.old output.new result (compile_output sample_width matrix.now) }
{
    let answer = compile::compile(matrix, sample_width, output);
    // A number, since the documented call answers by `compile_answer`.
    if answer.refusal != 0 {
        return text::write_refused(answer.refusal, answer.place, output);
    }
    answer.written
}

// Writes it at the start of the lent bytes and answers how long it is; nothing where they are too few for some netlist.
pub fn write_compiled(matrix: &[u8], sample_width: u8, output: &mut [u8]) -> usize
    ensures wrote { Wrote output.old output.new result (compile_output_in (length output.old) sample_width matrix.now) }
    ensures prefix_length { PrefixLength result output.new }
{
    // A closure that asks for room would need the whole equation again as its contract, for one `if`.
    if output.len() < ENOUGH_BYTES {
        return 0;
    }
    write_output(matrix, sample_width, output)
}
