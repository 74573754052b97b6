// A case of compile: the length of the lent buffer and the length of a matrix record, then the sample width (1 byte) and the record's
// bytes. The answer and the buffer afterwards, which held A5 before, are printed.
ghost use Rattle.std.specs.Prelude.{◌≡◌, length};

use arrays::filled;
use compile_rules::CompileAnswer;
use std::io;
use std::io::{Read, Write};
use streams::read_full;

// What the lent buffer holds before.
const HELD: u8 = 0xA5;

fn old_bytes() -> [u8; 65536]
    ensures { 65536 ≡ length result }
{
    filled(HELD)
}

fn write_bytes<W: Write>(output: &mut W, bytes: &[u8]) -> io::Result<()> {
    for byte in bytes {
        write!(output, "{byte:02x}")?;
    }
    output.write_all(b"\n")
}

fn write_answer<W: Write>(output: &mut W, answer: CompileAnswer) -> io::Result<()> {
    write!(
        output,
        "{} {} {} ",
        answer.refusal, answer.place, answer.written
    )?;
    write!(
        output,
        "{} {} {} ",
        answer.operations, answer.plain, answer.divisors
    )?;
    writeln!(
        output,
        "{} {} {}",
        answer.replacements, answer.depth, answer.negated
    )
}

fn compile_into<W: Write>(
    output: &mut W,
    matrix: &[u8],
    width: u8,
    buffer: &mut [u8],
) -> io::Result<()> {
    write_answer(output, compile::compile(matrix, width, buffer))?;
    write_bytes(output, buffer)
}

// The part that is lent takes the matrix record.
fn fill_matrix<R: Read, W: Write>(
    input: &mut R,
    output: &mut W,
    matrix: &mut [u8],
    width: u8,
    room: u16,
) -> io::Result<()> {
    read_full(input, matrix)?;
    let mut buffer = old_bytes();
    compile_into(output, matrix, width, &mut buffer[..room as usize])
}

pub(crate) fn compile_case<R: Read, W: Write>(
    input: &mut R,
    output: &mut W,
    room: u16,
    length: u16,
) -> io::Result<()> {
    let mut width = [0u8; 1];
    read_full(input, &mut width)?;
    let mut matrix = [0u8; 65536];
    fill_matrix(
        input,
        output,
        &mut matrix[..length as usize],
        width[0],
        room,
    )
}
