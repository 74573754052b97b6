// Reads a netlist and a list of samples on standard input and prints the outputs of the netlist's clocked form, a line a clock, or the
// refusal. The input is run-bank's, with the samples of all vectors one after another: the netlist's length (2 bytes, little-endian), the
// netlist, then the samples (4 bytes each, little-endian two's complement).
// Where the input ends early, a missing byte of the length counts as 0, the netlist is what there is of it, and the samples likewise.
// Of samples that are longer than MOST_BYTES the first so many bytes are taken; the script clock-bank takes no such input.
#![tactic(auto)]

ghost use Rattle.std.specs.Prelude.{◌≡◌, ◌*◌, length};
ghost use Rattle.limits.specs.Limits.{max_rows};
ghost use Rattle.clock_text.specs.ListBytes.{most_samples};

use arrays::filled;
use clock_text::lists::{MOST_OUTPUTS, MOST_SAMPLES};
use layout_records::little_endian::word_at;
use std::io;
use std::io::{Read, Write};
use streams::read_full;

const MOST_BYTES: usize = 4 * MOST_SAMPLES;

fn no_samples() -> [u8; MOST_BYTES]
    ensures { 4 * most_samples ≡ length result }
{
    filled(0)
}

fn no_outputs() -> [i64; MOST_OUTPUTS]
    ensures { max_rows * most_samples ≡ length result }
{
    filled(0)
}

fn print_refusal<W: Write>(output: &mut W, refusal: u8, place: usize) -> io::Result<()> {
    let mut text = [0u8; 4096];
    let written = clock_text::write_refusal(refusal, place, &mut text);
    output.write_all(&text[..written])
}

fn print_line<W: Write>(
    output: &mut W,
    outputs: &[i64],
    rows: usize,
    clock: usize,
) -> io::Result<()> {
    let mut text = [0u8; 4096];
    let written = clock_text::write_line(outputs, rows, clock, &mut text);
    output.write_all(&text[..written])
}

fn print_lines<W: Write>(
    output: &mut W,
    outputs: &[i64],
    rows: usize,
    clocks: usize,
) -> io::Result<()> {
    for clock in 0..clocks {
        print_line(output, outputs, rows, clock)?;
    }
    Ok(())
}

fn clock_netlist<R: Read, W: Write>(
    input: &mut R,
    output: &mut W,
    netlist: &[u8],
) -> io::Result<()> {
    let mut samples = no_samples();
    let count = read_full(input, &mut samples)?;
    let mut outputs = no_outputs();
    let clocked = clock_text::lists::clock_bytes(netlist, &samples[..count], &mut outputs);
    // A number, since `clocked_in` gives rows and clocks beside it.
    if clocked.refusal != 0 {
        return print_refusal(output, clocked.refusal, clocked.place);
    }
    print_lines(output, &outputs, clocked.rows, clocked.clocks)
}

// The part that is lent takes the netlist; the samples follow.
fn fill_netlist<R: Read, W: Write>(
    input: &mut R,
    output: &mut W,
    netlist: &mut [u8],
) -> io::Result<()> {
    let count = read_full(input, netlist)?;
    clock_netlist(input, output, &netlist[..count])
}

fn main(rt: HostRuntime) -> io::Result<()> {
    let mut input = rt.stdin();
    let mut length = [0u8; 2];
    read_full(&mut input, &mut length)?;
    let size = word_at(&length, 0) as usize;
    let mut netlist = [0u8; 65536];
    fill_netlist(&mut input, &mut rt.stdout(), &mut netlist[..size])
}
