// Document 01, "Programs": what matrix-market writes for a Matrix Market file, the record's bytes or the line of the refusal. Rests on
// `market` and `text`.
#![tactic(auto)]

ghost use Rattle.std.specs.Prelude.{◌≤◌, length};
ghost use Rattle.layout_rules.specs.Matrix.{longest_record};
ghost use Rattle.text.specs.Wrote.{Wrote, PrefixLength};
ghost use Rattle.market_output.specs.MarketOutput.{market_output, market_output_in};

use layout_matrix::LONGEST_RECORD;

fn write_record(file: &[u8], output: &mut [u8]) -> usize
    requires { longest_record ≤ length output.old }
    ensures { Wrote output.old output.new result (market_output file.now) }
{
    let answer = market::read_matrix_market(file, output);
    // A number, since the documented call answers by `market_answer`.
    match answer.refusal {
        0 => answer.written,
        refusal => text::write_refused(refusal, answer.place, output),
    }
}

// Writes it at the start of the lent bytes and answers how long it is; nothing where they are too few for some record.
pub fn write_market(file: &[u8], output: &mut [u8]) -> usize
    ensures wrote { Wrote output.old output.new result (market_output_in (length output.old) file.now) }
    ensures prefix_length { PrefixLength result output.new }
{
    // A closure that asks for room would need the whole equation again as its contract, for one `if`.
    if output.len() < LONGEST_RECORD {
        return 0;
    }
    write_record(file, output)
}
