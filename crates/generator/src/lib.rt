// Document 01, "Generated banks": generate, from m, n and a seed to a matrix record, refusals 4 and 6. Rests on `refusals`,
// `limits`, `layout_records` and `layout_matrix`, and for its laws on `bank_rules`.
#![tactic(auto)]

ghost use Rattle.std.specs.Prelude.{◌≡◌, ◌≤◌, length};
ghost use mathlib.Core.List.{flat_map};
ghost use Rattle.layout_rules.specs.Bytes.{little_endian};
ghost use Rattle.layout_rules.specs.Matrix.{coefficient_place};
ghost use Rattle.layout_rules.specs.Written.{written};
ghost use Rattle.generator.specs.Answer.{answer_of};
ghost use Rattle.generator.specs.Generator.{grown, upper_half, generated_words, generate_answer, generate_buffer};

use layout_matrix::{coefficient_place, write_matrix_head};
use layout_records::little_endian::write_word;
use refusals::Refusal;

// What generate returns: a refusal and its place, or the bytes written. No Result: document 01's calls answer so, and generate_answer is an
// equation of it.
#[derive(Clone, Copy)]
pub struct GenerateAnswer {
    pub refusal: u8,
    pub place: usize,
    pub written: usize,
}

impl From<Result<usize, Refusal>> for GenerateAnswer {
    ghost from_gives = { λ written answer. answer ≡ answer_of written };

    fn from(written: Result<usize, Refusal>) -> GenerateAnswer {
        match written {
            Ok(count) => GenerateAnswer {
                refusal: 0,
                place: 0,
                written: count,
            },
            Err(refusal) => GenerateAnswer {
                refusal: refusal.number(),
                place: 0,
                written: 0,
            },
        }
    }
}

// "hexadecimal 9E3779B9".
const GROWTH: u32 = 0x9E37_79B9;

// "the state grows by hexadecimal 9E3779B9, wrapping at 32 bits".
fn grown_state(state: u32) -> u32
    ensures { result ≡ grown state }
{
    state.wrapping_add(GROWTH)
}

// "the upper 16 bits of (state xor state shifted right by 15)".
fn upper_half(state: u32) -> u16
    ensures { result ≡ upper_half state }
{
    ((state ^ (state >> 15)) >> 16) as u16
}

// So many coefficients, in the record's order, behind the head.
fn write_coefficients(count: usize, seed: u32, buffer: &mut [u8])
    requires { coefficient_place count ≤ length buffer.old }
    ensures { buffer.new ≡ written buffer.old (coefficient_place 0) (flat_map little_endian (generated_words seed count)) }
{
    let mut state = seed;
    for index in 0..count {
        state = grown_state(state);
        write_word(buffer, coefficient_place(index), upper_half(state));
    }
}

// The bytes of the record, or the refusal. Nothing is written before it is known that all of it fits.
fn write_record(m: u8, n: u8, seed: u32, buffer: &mut [u8]) -> Result<usize, Refusal>
    ensures value { answer_of result ≡ generate_answer m n seed (length buffer.old) }
    ensures buffer_after { buffer.new ≡ generate_buffer m n seed buffer.old }
{
    if limits::size_outside(m, n) {
        return Err(Refusal::MatrixSize);
    }
    let count = (m as usize) * (n as usize);
    let size = coefficient_place(count);
    if buffer.len() < size {
        return Err(Refusal::ShortBuffer);
    }
    write_matrix_head(m, n, buffer);
    write_coefficients(count, seed, buffer);
    Ok(size)
}

// The matrix record of m, n and a seed, at the start of the lent buffer.
pub fn generate(m: u8, n: u8, seed: u32, buffer: &mut [u8]) -> GenerateAnswer
    ensures value { result ≡ generate_answer m n seed (length buffer.old) }
    ensures buffer_after { buffer.new ≡ generate_buffer m n seed buffer.old }
{
    write_record(m, n, seed, buffer).into()
}
