// Generates 1,000 banks of 8 by 8, compiles each, checks the netlist against its matrix and prints a line for each. With nothing on
// standard input the seeds are 0 to 999; with anything there they are spread ones.
#![tactic(auto)]

use std::io;
use std::io::Write;
use streams::read_full;

fn main(rt: HostRuntime) -> io::Result<()> {
    let mut input = [0u8; 1];
    let spread = read_full(&mut rt.stdin(), &mut input)? > 0;
    let mut text = [0u8; 65536];
    let written = burn_in_text::write_burn_in(spread, &mut text);
    rt.stdout().write_all(&text[..written])
}
