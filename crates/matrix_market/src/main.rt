// Reads a Matrix Market file on standard input and writes its matrix record, or the line of its refusal. Of a file longer than MOST_BYTES
// the first so many bytes are taken; the script matrix-market takes no such file. The third byte of a record is that of its kind, and of
// a refusal a letter.
#![tactic(auto)]

ghost use Rattle.std.specs.Prelude.{◌≡◌, length};

use arrays::filled;
use std::io;
use std::io::Write;
use streams::read_full;

const MOST_BYTES: usize = 262144;

fn no_file() -> [u8; MOST_BYTES]
    ensures { 262144 ≡ length result }
{
    filled(0)
}

fn main(rt: HostRuntime) -> io::Result<()> {
    let mut file = no_file();
    let count = read_full(&mut rt.stdin(), &mut file)?;
    let mut output = [0u8; 4096];
    let written = market_output::write_market(&file[..count], &mut output);
    rt.stdout().write_all(&output[..written])
}
