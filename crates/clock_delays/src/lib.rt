// Document 01, "One vector every clock": the longest delay of each symbol of a netlist, the places of the delays in the store, the symbols
// with delays, and the total of the registers, as `clock_rules` has them. Rests on `netlist_read`, `arrays` and
// `refusals`.
#![tactic(auto)]

pub mod depths; // depths.rt: a netlist with the depths of its symbols

ghost use Rattle.std.specs.Prelude.{◌≡◌, [], ◌∷◌, ◌≤◌, ◌<◌, length, IfOk, IfErr};
ghost use Rattle.limits.specs.Limits.{max_symbols};
ghost use Rattle.layout_rules.specs.Places.{netlist_in};
ghost use Rattle.board_rules.specs.Table.{filled};
ghost use Rattle.clock_rules.specs.Delays.{operand_delays, registers};
ghost use Rattle.clock_rules.specs.Tables.{entered, LongestHeld, PlacesHeld, WaitingHeld};
ghost use Rattle.clock_rules.specs.Answer.{registers_answer};
ghost use Rattle.netlist_rules.specs.Read.{refused, read_netlist};
ghost use Rattle.refusals.specs.Numbers.{number};

use arrays::filled;
use board_rules::FORMS_LENGTH;
use clock_rules::{Delay, RegistersAnswer};
use depths::NetlistDepths;
use limits::MAX_SYMBOLS;
use netlist_read::accepted::Netlist;
use refusals::Refused;

// ---- longest delays

// One delay, where it is longer than those of its symbol before.
fn enter(longest: &mut [usize; MAX_SYMBOLS], delay: Delay)
    requires { (delay.symbol < max_symbols) × (length longest.old ≡ max_symbols) }
    ensures { longest.new ≡ entered longest.old (delay ∷ []) }
{
    longest[delay.symbol] = longest[delay.symbol].max(delay.clocks);
}

// The delays of both operands of all operations.
fn enter_operations(depths: &NetlistDepths, longest: &mut [usize; MAX_SYMBOLS])
    requires { longest.old ≡ filled max_symbols 0 }
    ensures { longest.new ≡ entered (filled max_symbols 0) (operand_delays (netlist_in depths.now.netlist.bytes.now) (netlist_in depths.now.netlist.bytes.now).head.n (netlist_in depths.now.netlist.bytes.now).operations) }
{
    for k in 0..depths.netlist.operations() {
        let (first, second) = depths.operand_delays(k);
        enter(longest, first);
        enter(longest, second);
    }
}

// The delays of all outputs, behind those of the operands.
fn enter_outputs(depths: &NetlistDepths, longest: &mut [usize; MAX_SYMBOLS])
    requires { longest.old ≡ entered (filled max_symbols 0) (operand_delays (netlist_in depths.now.netlist.bytes.now) (netlist_in depths.now.netlist.bytes.now).head.n (netlist_in depths.now.netlist.bytes.now).operations) }
    ensures { LongestHeld (netlist_in depths.now.netlist.bytes.now) longest.new }
{
    for i in 0..depths.netlist.m() {
        enter(longest, depths.output_delay(i));
    }
}

// The longest delay of each symbol.
pub fn fill_longest(depths: &NetlistDepths, longest: &mut [usize; MAX_SYMBOLS])
    requires { longest.old ≡ filled max_symbols 0 }
    ensures { LongestHeld (netlist_in depths.now.netlist.bytes.now) longest.new }
{
    enter_operations(depths, longest);
    enter_outputs(depths, longest);
}

// ---- places

// The places of the delays of each symbol, behind the operations' registers, and the total of the registers.
pub fn fill_places(
    netlist: &Netlist,
    longest: &[usize; MAX_SYMBOLS],
    places: &mut [usize; MAX_SYMBOLS],
) -> usize
    requires { LongestHeld (netlist_in netlist.now.bytes.now) longest.now × (length places.old ≡ max_symbols) }
    ensures { (result ≡ registers (netlist_in netlist.now.bytes.now)) × PlacesHeld (netlist_in netlist.now.bytes.now) places.new }
{
    let operations = netlist.operations();
    let symbols = netlist.n() + operations;
    let mut at = operations;
    for symbol in 0..symbols {
        places[symbol] = at;
        at += longest[symbol];
    }
    at
}

// The symbols with delays, ascending, and how many entries they are.
pub fn fill_waiting(
    longest: &[usize; MAX_SYMBOLS],
    symbols: usize,
    waiting: &mut [usize; MAX_SYMBOLS],
) -> usize
    requires { (length longest.now ≡ max_symbols) × ((symbols ≤ max_symbols) × (length waiting.old ≡ max_symbols)) }
    ensures { WaitingHeld longest.now symbols waiting.new result }
{
    let mut entries: usize = 0;
    for symbol in 0..symbols {
        if longest[symbol] != 0 {
            waiting[entries] = symbol;
            entries += 1;
        }
    }
    entries
}

// The total of the registers of a netlist that read accepts.
fn total_registers(bytes: &[u8]) -> Result<usize, Refused>
    ensures ok { IfOk result (λ total. registers_answer bytes.now ≡ record { refusal = 0; place = 0; registers = total }) }
    ensures err { IfErr result (λ r. read_netlist bytes.now ≡ refused (number r.refusal) r.place) }
{
    let mut forms: [i64; FORMS_LENGTH] = filled(0);
    let mut depths: [u16; MAX_SYMBOLS] = filled(0);
    let netlist = netlist_read::open_with(bytes, &mut forms, &mut depths)?;
    let mut longest: [usize; MAX_SYMBOLS] = filled(0);
    let depths = NetlistDepths {
        netlist,
        depths: &depths,
    };
    fill_longest(&depths, &mut longest);
    let mut places: [usize; MAX_SYMBOLS] = filled(0);
    Ok(fill_places(&netlist, &longest, &mut places))
}

// The total of a netlist's registers, for any bytes. Document 01's call answers by this struct, so a refusal is a number in it.
pub fn registers(netlist: &[u8]) -> RegistersAnswer
    ensures { result ≡ registers_answer netlist.now }
{
    match total_registers(netlist) {
        Ok(registers) => RegistersAnswer {
            refusal: 0,
            place: 0,
            registers,
        },
        Err(refused) => RegistersAnswer {
            refusal: refused.refusal.number(),
            place: refused.place,
            registers: 0,
        },
    }
}
