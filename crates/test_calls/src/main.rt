// Runs compile, read, check, sample_width and run on stored cases. Standard input is a list of cases: which call (1 byte: 0 compile,
// 1 read, check and sample_width, 2 run), two numbers (2 bytes each, little-endian), and the bytes that belong to them, as the call's
// file says. What is printed is compared with the output of a second implementation.
#![tactic(auto)]

mod compile_case; // compile_case.rt: a case of compile
mod check_case; // check_case.rt: a case of read, check and sample_width
mod run_case; // run_case.rt: a case of run

use layout_records::little_endian::word_at;
use std::io;
use std::io::{BufWriter, Read, Write};
use streams::read_full;

fn one_case<R: Read, W: Write>(
    input: &mut R,
    output: &mut W,
    call: u8,
    first: u16,
    second: u16,
) -> io::Result<()> {
    // The byte that the input has for the call; no table of functions is plainer than three arms.
    match call {
        0 => compile_case::compile_case(input, output, first, second),
        1 => check_case::check_case(input, output, first, second),
        _ => run_case::run_case(input, output, first, second),
    }
}

// Reads one case and answers whether there was one.
fn next_case<R: Read, W: Write>(input: &mut R, output: &mut W) -> io::Result<bool> {
    let mut head = [0u8; 5];
    if read_full(input, &mut head)? < 5 {
        return Ok(false);
    }
    let first = word_at(&head, 1);
    let second = word_at(&head, 3);
    one_case(input, output, head[0], first, second)?;
    Ok(true)
}

// Nothing says that the input ends, so the cases are counted up to a number that no run reaches.
fn main(rt: HostRuntime) -> io::Result<()> {
    let mut input = rt.stdin();
    let mut output = BufWriter::new(rt.alloc(), rt.stdout())?;
    for _ in 0..u64::MAX {
        if !next_case(&mut input, &mut output)? {
            break;
        }
    }
    output.flush()
}
