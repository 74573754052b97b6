// Document 01, "Reading, checking, running": run, with the samples given as bytes, 4 bytes each, little-endian two's complement.
// Rests on `limits`, `layout_records` and `netlist_run`.
ghost use Rattle.std.specs.Prelude.{◌≡◌, ◌*◌, ◌≤◌, length};
ghost use Rattle.netlist_rules.specs.Run.{run_answer, run_outputs};
ghost use Rattle.run_text.specs.Samples.{sample_count, samples_of, first_samples};

use layout_records::little_endian::{double_word_at, signed_double_word};
use limits::MAX_COLUMNS;
use netlist_rules::RunAnswer;

// One sample more than any netlist takes.
const TOO_MANY: usize = MAX_COLUMNS + 1;

// How many samples the bytes hold. Bytes that are no whole number of samples count as too many.
fn sample_count(bytes: &[u8]) -> usize
    ensures { result ≡ sample_count bytes.now }
{
    if bytes.len() % 4 != 0 {
        return TOO_MANY;
    }
    bytes.len() / 4
}

// Fills the lent samples with the first ones that the bytes hold.
pub fn fill_samples(bytes: &[u8], samples: &mut [i32])
    requires { 4 * length samples.old ≤ length bytes.now }
    ensures { samples.new ≡ first_samples bytes.now (length samples.old) }
{
    for (i, sample) in samples.iter_mut().enumerate() {
        *sample = signed_double_word(double_word_at(bytes, 4 * i));
    }
}

// Run on the samples that the bytes hold. Too many are refused whatever they are, so zeros stand for them.
pub(crate) fn run_on_bytes(netlist: &[u8], samples: &[u8], outputs: &mut [i64]) -> RunAnswer
    ensures value { result ≡ run_answer netlist.now (samples_of samples.now) (length outputs.old) }
    ensures outputs_after { outputs.new ≡ run_outputs netlist.now (samples_of samples.now) outputs.old }
{
    let count = sample_count(samples);
    if count > MAX_COLUMNS {
        let zeros: [i32; TOO_MANY] = [0; TOO_MANY];
        return netlist_run::run(netlist, &zeros, outputs);
    }
    let mut vector: [i32; MAX_COLUMNS] = [0; MAX_COLUMNS];
    fill_samples(samples, &mut vector[..count]);
    netlist_run::run(netlist, &vector[..count], outputs)
}
