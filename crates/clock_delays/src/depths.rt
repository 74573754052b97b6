// A netlist that read accepts, with the depths of its symbols, and by how many clocks each operand and output of it waits. Rests on
// `netlist_read`.
ghost use Rattle.std.specs.Prelude.{◌≡◌, ◌+◌, ◌<◌};
ghost use Rattle.layout_rules.specs.Places.{operation_at, output_at, netlist_in};
ghost use Rattle.clock_rules.specs.Delays.{symbol_depth, first_delay, second_delay, delay_of_output};
ghost use Rattle.clock_rules.specs.Tables.{SymbolDepths};

use clock_rules::Delay;
use limits::MAX_SYMBOLS;
use netlist_read::accepted::Netlist;

#[derive(Clone, Copy)]
pub struct NetlistDepths<'a> {
    pub netlist: Netlist<'a>,
    pub depths: &'a [u16; MAX_SYMBOLS],
    ghost depths_held: { SymbolDepths (netlist_in netlist.bytes.now) depths.now },
}

impl<'a> NetlistDepths<'a> {
    fn depth(&self, symbol: usize) -> usize
        requires { symbol < self.now.netlist.head.n + self.now.netlist.head.operations }
        ensures { result ≡ symbol_depth (netlist_in self.now.netlist.bytes.now) symbol }
    {
        self.depths[symbol] as usize
    }

    // Both operands of operation k wait until it can take them one clock before its own depth.
    pub fn operand_delays(&self, k: usize) -> (Delay, Delay)
        requires { k < self.now.netlist.head.operations }
        ensures { (result.0 ≡ first_delay (netlist_in self.now.netlist.bytes.now) (self.now.netlist.head.n + k) (operation_at self.now.netlist.bytes.now k)) × (result.1 ≡ second_delay (netlist_in self.now.netlist.bytes.now) (self.now.netlist.head.n + k) (operation_at self.now.netlist.bytes.now k)) }
    {
        let o = self.netlist.operation(k);
        let a = o.a as usize;
        let b = o.b as usize;
        let taken = self.depth(self.netlist.n() + k) - 1;
        (
            Delay {
                symbol: a,
                clocks: taken - self.depth(a),
            },
            Delay {
                symbol: b,
                clocks: taken - self.depth(b),
            },
        )
    }

    // The output of a row waits for the deepest symbol, but a zero one, which has no value to wait for.
    pub fn output_delay(&self, i: usize) -> Delay
        requires { i < self.now.netlist.head.m }
        ensures { result ≡ delay_of_output (netlist_in self.now.netlist.bytes.now) (output_at self.now.netlist.bytes.now self.now.netlist.head.operations i) }
    {
        let o = self.netlist.output(i);
        let symbol = o.symbol as usize;
        // A byte of the record, which `delay_of_output` asks for.
        if o.sign == 2 {
            return Delay { symbol, clocks: 0 };
        }
        let deepest = self.netlist.totals.depth as usize;
        Delay {
            symbol,
            clocks: deepest - self.depth(symbol),
        }
    }
}
