// Reads a netlist on standard input and writes the text of its module, or the line of its refusal. A netlist's last record starts within
// 6,137 bytes and has at most 65,535, so of longer input the first 131,072 bytes have the same answer. A text begins with `module`, and
// never with `refused`.
#![tactic(auto)]

ghost use Rattle.std.specs.Prelude.{◌≡◌, length};

use arrays::filled;
use std::io;
use std::io::Write;
use streams::read_full;

// As much of a netlist as any answer needs.
const NETLIST_ROOM: usize = 131072;

fn no_netlist() -> [u8; NETLIST_ROOM]
    ensures { 131072 ≡ length result }
{
    filled(0)
}

fn main(rt: HostRuntime) -> io::Result<()> {
    let mut netlist = no_netlist();
    let count = read_full(&mut rt.stdin(), &mut netlist)?;
    let mut output = [0u8; 65536];
    let written = verilog_output::write_module(&netlist[..count], &mut output);
    rt.stdout().write_all(&output[..written])
}
