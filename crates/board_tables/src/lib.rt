// Document 01, "Netlist and board machine": what an operation and an output make of earlier entries, and the tables of coefficients,
// values and depths that are lent, as `board_rules` has them. The bounds of symbols and columns stay clauses: they are of plain numbers,
// and a struct of table and columns would be made anew at each call.
#![tactic(auto)]

ghost use Rattle.std.specs.Prelude.{◌≡◌, ◌+◌, ◌*◌, ◌-◌, ◌≤◌, ◌<◌, get_or};
ghost use Rattle.std.proofs.lemmas.List.Edits.{sets};
ghost use Rattle.limits.specs.Limits.{max_columns, max_symbols};
ghost use Rattle.board_rules.specs.Machine.{shifted, joined, with_sign, entry_at, operation_depth, unit};
ghost use Rattle.board_rules.specs.Table.{Small, SmallForms, form_appended, forms_started, value_appended};

use board_rules::FORMS_LENGTH;
use layout_rules::Operation;
use limits::{MAX_COLUMNS, MAX_SYMBOLS};

// A·2^sA + B·2^sB, or A·2^sA − B·2^sB: of entries, and of their coefficients.
pub fn combined(sign: u8, a: i64, sa: u8, b: i64, sb: u8) -> i64
    requires { Small a sa × Small b sb }
    ensures { result ≡ joined sign (shifted a sa) (shifted b sb) }
{
    let x = integers::shifted(a, sa);
    let y = integers::shifted(b, sb);
    if sign == 0 { x + y } else { x - y }
}

// Plus or minus an entry times 2^shift, or zero.
pub fn output_value(sign: u8, z: i64, shift: u8) -> i64
    requires { Small z shift }
    ensures { result ≡ with_sign sign (shifted z shift) }
{
    let x = integers::shifted(z, shift);
    if sign == 0 {
        x
    } else if sign == 1 {
        -x
    } else {
        0
    }
}

// The coefficients of an operation, from the rows of its operands into the row of its symbol.
pub fn append_form(table: &mut [i64; FORMS_LENGTH], o: Operation, symbol: usize, n: usize)
    requires symbol_lt_max_symbols { (symbol < max_symbols) × (n ≤ max_columns) }
    requires a_lt_symbol { (o.a < symbol) × (o.b < symbol) }
    requires small_forms { SmallForms table.old n o }
    ensures { table.new ≡ form_appended table.old n o symbol }
{
    let a = o.a as usize;
    let b = o.b as usize;
    for j in 0..n {
        let x = table[a * MAX_COLUMNS + j];
        let y = table[b * MAX_COLUMNS + j];
        let z = combined(o.sign, x, o.sa, y, o.sb);
        table[symbol * MAX_COLUMNS + j] = z;
    }
}

// The coefficients of one sample: the unit vector of its column.
fn start_form(table: &mut [i64; FORMS_LENGTH], symbol: usize, n: usize)
    requires { (symbol < n) × (n ≤ max_columns) }
    ensures { table.new ≡ sets table.old (symbol * max_columns) (unit n symbol) }
{
    for j in 0..n {
        let c: i64 = if j == symbol { 1 } else { 0 };
        table[symbol * MAX_COLUMNS + j] = c;
    }
}

// The coefficients of the n samples, into their rows.
pub fn start_forms(table: &mut [i64; FORMS_LENGTH], n: usize)
    requires { n ≤ max_columns }
    ensures { table.new ≡ forms_started table.old n }
{
    for i in 0..n {
        start_form(table, i, n);
    }
}

// One operation's depth: 1 more than the deeper operand's.
pub fn operation_depth(depths: &[u16; MAX_SYMBOLS], o: Operation) -> u16
    requires a_lt_max_symbols { (o.a < max_symbols) × (o.b < max_symbols) }
    requires a_bound { (get_or depths.now o.a 0 < 65535) × (get_or depths.now o.b 0 < 65535) }
    ensures { result ≡ operation_depth depths.now o }
{
    let a = o.a as usize;
    let b = o.b as usize;
    depths[a].max(depths[b]) + 1
}

// One operation on board values: its value, at its symbol.
pub fn append_value(values: &mut [i64; MAX_SYMBOLS], o: Operation, symbol: usize)
    requires symbol_lt_max_symbols { (symbol < max_symbols) × ((o.a < max_symbols) × (o.b < max_symbols)) }
    requires small { Small (entry_at values.old o.a) o.sa × Small (entry_at values.old o.b) o.sb }
    ensures { values.new ≡ value_appended values.old o symbol }
{
    let a = o.a as usize;
    let b = o.b as usize;
    let x = values[a];
    let y = values[b];
    let z = combined(o.sign, x, o.sa, y, o.sb);
    values[symbol] = z;
}
