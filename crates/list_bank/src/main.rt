// Reads a sample width (1 byte) and a matrix record on standard input and prints its netlist, or its refusal. Where the input ends
// early, the sample width counts as 0. A record has at most 65,535 bytes, so of a longer one the first 65,536 bytes have the same answer.
#![tactic(auto)]

use std::io;
use std::io::Write;
use streams::read_full;

fn main(rt: HostRuntime) -> io::Result<()> {
    let mut input = rt.stdin();
    let mut width = [0u8; 1];
    read_full(&mut input, &mut width)?;
    let mut matrix = [0u8; 65536];
    let count = read_full(&mut input, &mut matrix)?;
    let mut text = [0u8; 65536];
    let written = bank_text::write_bank(&matrix[..count], width[0], &mut text);
    rt.stdout().write_all(&text[..written])
}
