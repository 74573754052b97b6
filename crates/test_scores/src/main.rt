// Goes through elimination state by state on stored matrices. Standard input is a list of matrix records, one behind the other. For each
// matrix a line for each state is printed, from the matrix's rows to the remaining rows, and then an empty line. What is printed is
// compared with the output of a second implementation, which keeps no scores from one state to the next.
#![tactic(auto)]

mod state; // state.rt: the line of a state

ghost use Rattle.std.specs.Prelude.{◌≡◌, ◌≤◌, length};
ghost use Rattle.layout_rules.specs.Matrix.{matrix_refusal};

use layout_matrix::LONGEST_RECORD;
use layout_records::little_endian::{word_at, write_word};
use limits::MAX_OPERATIONS;
use std::io;
use std::io::{BufWriter, Read, Write};
use streams::read_full;

// The line of each state, then an empty line. Elimination makes fewer steps than a netlist can have operations, so the states end first.
fn print_states<W: Write>(output: &mut W, matrix: &[u8]) -> io::Result<()>
    requires { matrix_refusal matrix.now ≡ 0 }
{
    for steps in 0..MAX_OPERATIONS {
        if !state::print_state(output, matrix, steps)? {
            break;
        }
    }
    output.write_all(b"\n")
}

// Prints the states of a matrix and answers true, unless the record is declined.
fn print_matrix<W: Write>(output: &mut W, matrix: &[u8]) -> io::Result<bool> {
    if layout_matrix::matrix_refusal(matrix).is_err() {
        return Ok(false);
    }
    print_states(output, matrix)?;
    Ok(true)
}

// The part that is lent takes the record, of which the length has been read.
fn fill_matrix<R: Read, W: Write>(
    input: &mut R,
    output: &mut W,
    matrix: &mut [u8],
    size: u16,
) -> io::Result<bool>
    requires { 2 ≤ length matrix.old }
{
    write_word(matrix, 0, size);
    read_full(input, &mut matrix[2..])?;
    print_matrix(output, matrix)
}

// Reads one record and answers whether there was one that is not declined. No record is shorter than its head or longer than the longest.
fn next_matrix<R: Read, W: Write>(input: &mut R, output: &mut W) -> io::Result<bool> {
    let mut length = [0u8; 2];
    if read_full(input, &mut length)? < 2 {
        return Ok(false);
    }
    let size = word_at(&length, 0);
    if size < 6 {
        return Ok(false);
    }
    if size as usize > LONGEST_RECORD {
        return Ok(false);
    }
    let mut matrix = [0u8; LONGEST_RECORD];
    fill_matrix(input, output, &mut matrix[..size as usize], size)
}

// Nothing says that the input ends, so the matrices are counted up to a number that no run reaches.
fn main(rt: HostRuntime) -> io::Result<()> {
    let mut input = rt.stdin();
    let mut output = BufWriter::new(rt.alloc(), rt.stdout())?;
    for _ in 0..u64::MAX {
        if !next_matrix(&mut input, &mut output)? {
            break;
        }
    }
    output.flush()
}
