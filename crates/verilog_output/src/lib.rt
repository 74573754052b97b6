// Document 01, "Programs": what verilog-bank writes for a netlist, the text of its module or the line of the refusal. Rests on `verilog`
// and `text`.
#![tactic(auto)]

ghost use Rattle.std.specs.Prelude.{◌≤◌, length};
ghost use Rattle.text.specs.Wrote.{Wrote, PrefixLength};
ghost use Rattle.verilog_rules.specs.Answer.{enough_text};
ghost use Rattle.verilog_output.specs.VerilogOutput.{verilog_output, verilog_output_in};

fn write_output(netlist: &[u8], output: &mut [u8]) -> usize
    requires { enough_text ≤ length output.old }
    ensures { Wrote output.old output.new result (verilog_output netlist.now) }
{
    let answer = verilog::write_verilog(netlist, output);
    // A number, since the documented call answers by `verilog_answer`.
    if answer.refusal != 0 {
        return text::write_refused(answer.refusal, answer.place, output);
    }
    answer.written
}

// Writes it at the start of the lent bytes and answers how long it is; nothing where they are too few for some text.
pub fn write_module(netlist: &[u8], output: &mut [u8]) -> usize
    ensures wrote { Wrote output.old output.new result (verilog_output_in (length output.old) netlist.now) }
    ensures prefix_length { PrefixLength result output.new }
{
    // A closure that asks for room would need the whole equation again as its contract, for one `if`.
    if output.len() < verilog_rules::ENOUGH_TEXT {
        return 0;
    }
    write_output(netlist, output)
}
