// Reads a netlist and a vector of samples on standard input and prints the outputs, one a line, or the refusal. The input is the
// netlist's length (2 bytes, little-endian), the netlist, then the samples (4 bytes each, little-endian two's complement).
// Where the input ends early, a missing byte of the length counts as 0, the netlist is what there is of it, and the samples likewise.
// No netlist takes more samples than MAX_COLUMNS, so of longer input the bytes of one sample more have the same answer.
#![tactic(auto)]

use layout_records::little_endian::word_at;
use limits::MAX_COLUMNS;
use std::io;
use std::io::{Read, Write};
use streams::read_full;

fn run_netlist<R: Read, W: Write>(input: &mut R, output: &mut W, netlist: &[u8]) -> io::Result<()> {
    let mut samples = [0u8; 4 * MAX_COLUMNS + 4];
    let count = read_full(input, &mut samples)?;
    let mut text = [0u8; 4096];
    let written = run_text::write_run(netlist, &samples[..count], &mut text);
    output.write_all(&text[..written])
}

// The part that is lent takes the netlist; the samples follow.
fn fill_netlist<R: Read, W: Write>(
    input: &mut R,
    output: &mut W,
    netlist: &mut [u8],
) -> io::Result<()> {
    let count = read_full(input, netlist)?;
    run_netlist(input, output, &netlist[..count])
}

fn main(rt: HostRuntime) -> io::Result<()> {
    let mut input = rt.stdin();
    let mut length = [0u8; 2];
    read_full(&mut input, &mut length)?;
    let size = word_at(&length, 0) as usize;
    let mut netlist = [0u8; 65536];
    fill_netlist(&mut input, &mut rt.stdout(), &mut netlist[..size])
}
