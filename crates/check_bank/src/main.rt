// Reads a matrix record and a netlist on standard input and prints `accepted` where the netlist computes the matrix, or the refusal. The
// input is the record's length (4 bytes, little-endian), the record, then the netlist.
// Where the input ends early, a missing byte of the length counts as 0, the record is what there is of it, and the netlist likewise.
// A record has at most 65,535 bytes, so a longer one is refused with 2 whatever follows, and counts as one of 65,536.
// A netlist's last record starts within 6,137 bytes and has at most 65,535, so of a longer netlist the first 131,072 bytes have the same
// answer.
#![tactic(auto)]

ghost use Rattle.std.specs.Prelude.{◌≡◌, ◌≤◌, length};

use arrays::filled;
use layout_records::little_endian::word_at;
use std::io;
use std::io::{Read, Write};
use streams::read_full;

// One byte more than any record has.
const TOO_LONG: usize = 65536;

// As much of a netlist as any answer needs.
const NETLIST_ROOM: usize = 131072;

fn no_netlist() -> [u8; NETLIST_ROOM]
    ensures { 131072 ≡ length result }
{
    filled(0)
}

fn check_matrix<R: Read, W: Write>(input: &mut R, output: &mut W, matrix: &[u8]) -> io::Result<()> {
    let mut netlist = no_netlist();
    let count = read_full(input, &mut netlist)?;
    let mut text = [0u8; check_text::ROOM];
    let written = check_text::write_check(matrix, &netlist[..count], &mut text);
    output.write_all(&text[..written])
}

// The part that is lent takes the matrix record; the netlist follows.
fn fill_matrix<R: Read, W: Write>(
    input: &mut R,
    output: &mut W,
    matrix: &mut [u8],
) -> io::Result<()> {
    let count = read_full(input, matrix)?;
    check_matrix(input, output, &matrix[..count])
}

// The record's length, or that of one that is too long; it fits the buffer.
fn record_length(length: &[u8; 4]) -> usize
    ensures { result ≤ 65536 }
{
    if word_at(length, 2) > 0 {
        return TOO_LONG;
    }
    word_at(length, 0) as usize
}

fn main(rt: HostRuntime) -> io::Result<()> {
    let mut input = rt.stdin();
    let mut length = [0u8; 4];
    read_full(&mut input, &mut length)?;
    let size = record_length(&length);
    let mut matrix = [0u8; 65536];
    fill_matrix(&mut input, &mut rt.stdout(), &mut matrix[..size])
}
