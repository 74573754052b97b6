// Reads a sample width (1 byte) and a matrix record on standard input and writes its netlist's bytes, or the line of its refusal. Where
// the input ends early, the sample width counts as 0. A record has at most 65,535 bytes, so of a longer one the first 65,536 bytes have
// the same answer. A netlist's first byte is its head's length, and never that of `refused`.
#![tactic(auto)]

use std::io;
use std::io::Write;
use streams::read_full;

fn main(rt: HostRuntime) -> io::Result<()> {
    let mut input = rt.stdin();
    let mut width = [0u8; 1];
    read_full(&mut input, &mut width)?;
    let mut matrix = [0u8; 65536];
    let count = read_full(&mut input, &mut matrix)?;
    let mut output = [0u8; 65536];
    let written = compile_output::write_compiled(&matrix[..count], width[0], &mut output);
    rt.stdout().write_all(&output[..written])
}
