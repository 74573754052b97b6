// A case of run: a netlist's length and the number of its runs, the netlist, then for each run the number of samples and the number of
// outputs lent (1 byte each) and the samples (4 bytes each). For each run the answer and what the outputs hold afterwards are printed.
use layout_records::little_endian::{double_word_at, signed_double_word};
use std::io;
use std::io::{Read, Write};
use streams::read_full;

// What an output holds before: −2^62, which no netlist computes.
const HELD: i64 = -4611686018427387904;

fn print_outputs<W: Write>(output: &mut W, values: &[i64]) -> io::Result<()> {
    for value in values {
        write!(output, " {value}")?;
    }
    Ok(())
}

fn run_on<W: Write>(
    output: &mut W,
    netlist: &[u8],
    samples: &[i32],
    outputs: &mut [i64],
) -> io::Result<()> {
    let answer = netlist_run::run(netlist, samples, outputs);
    write!(output, "{} {}", answer.refusal, answer.place)?;
    print_outputs(output, outputs)?;
    output.write_all(b"\n")
}

fn next_sample<R: Read>(input: &mut R) -> io::Result<i32> {
    let mut bytes = [0u8; 4];
    read_full(input, &mut bytes)?;
    Ok(signed_double_word(double_word_at(&bytes, 0)))
}

// The part that is lent takes the samples.
fn fill_samples<R: Read, W: Write>(
    input: &mut R,
    output: &mut W,
    netlist: &[u8],
    samples: &mut [i32],
    outputs: u8,
) -> io::Result<()> {
    for sample in samples.iter_mut() {
        *sample = next_sample(input)?;
    }
    let mut held = [HELD; 256];
    run_on(output, netlist, samples, &mut held[..outputs as usize])
}

fn sized_run<R: Read, W: Write>(
    input: &mut R,
    output: &mut W,
    netlist: &[u8],
    samples: u8,
    outputs: u8,
) -> io::Result<()> {
    let mut vector = [0i32; 256];
    fill_samples(
        input,
        output,
        netlist,
        &mut vector[..samples as usize],
        outputs,
    )
}

fn next_run<R: Read, W: Write>(input: &mut R, output: &mut W, netlist: &[u8]) -> io::Result<()> {
    let mut counts = [0u8; 2];
    read_full(input, &mut counts)?;
    sized_run(input, output, netlist, counts[0], counts[1])
}

// The part that is lent takes the netlist; its runs follow.
fn fill_netlist<R: Read, W: Write>(
    input: &mut R,
    output: &mut W,
    netlist: &mut [u8],
    runs: u16,
) -> io::Result<()> {
    read_full(input, netlist)?;
    for _ in 0..runs {
        next_run(input, output, netlist)?;
    }
    Ok(())
}

pub(crate) fn run_case<R: Read, W: Write>(
    input: &mut R,
    output: &mut W,
    length: u16,
    runs: u16,
) -> io::Result<()> {
    let mut netlist = [0u8; 65536];
    fill_netlist(input, output, &mut netlist[..length as usize], runs)
}
