// Writes the matrix record that a seed gives, or the refusal. Standard input has m, n (1 byte each) and the seed (4 bytes, little-endian);
// where it ends early, a missing byte counts as 0, and what follows is not read.
#![tactic(auto)]

use std::io;
use std::io::Write;
use streams::read_full;

fn main(rt: HostRuntime) -> io::Result<()> {
    let mut input = [0u8; generate_output::INPUT_BYTES];
    read_full(&mut rt.stdin(), &mut input)?;
    let mut output = [0u8; 4096];
    let written = generate_output::write_generated(&input, &mut output);
    rt.stdout().write_all(&output[..written])
}
