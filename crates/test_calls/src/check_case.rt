// A case of read, check and sample_width: the length of a matrix record and the length of a netlist, then the bytes of both. All three
// answers are printed.
use std::io;
use std::io::{Read, Write};
use streams::read_full;

fn read_netlist<W: Write>(output: &mut W, netlist: &[u8]) -> io::Result<()> {
    let answer = netlist_read::read(netlist);
    write!(output, "read {} {} ", answer.refusal, answer.place)?;
    write!(output, "{} {} ", answer.m, answer.n)?;
    writeln!(output, "{} {}", answer.operations, answer.depth)
}

fn check_netlist<W: Write>(output: &mut W, matrix: &[u8], netlist: &[u8]) -> io::Result<()> {
    let answer = netlist_check::check(matrix, netlist);
    writeln!(output, "check {} {}", answer.refusal, answer.place)
}

fn sample_width_of<W: Write>(output: &mut W, netlist: &[u8]) -> io::Result<()> {
    let answer = netlist_read::sample_width(netlist);
    writeln!(
        output,
        "width {} {} {}",
        answer.refusal, answer.place, answer.width
    )
}

// The part that is lent takes the netlist.
fn fill_netlist<R: Read, W: Write>(
    input: &mut R,
    output: &mut W,
    matrix: &[u8],
    netlist: &mut [u8],
) -> io::Result<()> {
    read_full(input, netlist)?;
    read_netlist(output, netlist)?;
    check_netlist(output, matrix, netlist)?;
    sample_width_of(output, netlist)
}

// The part that is lent takes the matrix record; the netlist follows.
fn fill_matrix<R: Read, W: Write>(
    input: &mut R,
    output: &mut W,
    matrix: &mut [u8],
    length: u16,
) -> io::Result<()> {
    read_full(input, matrix)?;
    let mut netlist = [0u8; 65536];
    fill_netlist(input, output, matrix, &mut netlist[..length as usize])
}

pub(crate) fn check_case<R: Read, W: Write>(
    input: &mut R,
    output: &mut W,
    matrix_length: u16,
    netlist_length: u16,
) -> io::Result<()> {
    let mut matrix = [0u8; 65536];
    fill_matrix(
        input,
        output,
        &mut matrix[..matrix_length as usize],
        netlist_length,
    )
}
