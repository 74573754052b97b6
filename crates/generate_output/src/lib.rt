// Document 01, "Programs": what generate-bank writes for m, n and a seed, the record's bytes or the line of the refusal. Rests on
// `generator` and `text`.
#![tactic(auto)]

ghost use Rattle.std.specs.Prelude.{◌≤◌, length};
ghost use Rattle.layout_rules.specs.Matrix.{longest_record};
ghost use Rattle.text.specs.Wrote.{Wrote, PrefixLength};
ghost use Rattle.generate_output.specs.GenerateOutput.{generate_output, generate_output_in};

use layout_matrix::LONGEST_RECORD;
use layout_records::little_endian::double_word_at;

// The length of the input: m, n, and the seed in 4 bytes, little-endian.
pub const INPUT_BYTES: usize = 6;

fn write_record(m: u8, n: u8, seed: u32, output: &mut [u8]) -> usize
    requires { longest_record ≤ length output.old }
    ensures { Wrote output.old output.new result (generate_output m n seed) }
{
    let answer = generator::generate(m, n, seed, output);
    // A number, since the documented call answers by `generate_answer`.
    match answer.refusal {
        0 => answer.written,
        refusal => text::write_refused(refusal, answer.place, output),
    }
}

// Writes it at the start of the lent bytes and answers how long it is; nothing where they are too few for some record.
pub fn write_generated(input: &[u8; INPUT_BYTES], output: &mut [u8]) -> usize
    ensures wrote { Wrote output.old output.new result (generate_output_in (length output.old) input.now) }
    ensures prefix_length { PrefixLength result output.new }
{
    // A closure that asks for room would need the whole equation again as its contract, for one `if`.
    if output.len() < LONGEST_RECORD {
        return 0;
    }
    let seed = double_word_at(input, 2);
    write_record(input[0], input[1], seed, output)
}
