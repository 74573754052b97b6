// Document 01, "Netlist and board machine": the width of an entry and of an output, from a lent table of coefficients, as `board_rules`
// has it. The bounds of symbols, columns and bits stay clauses, since they are of plain numbers.
#![tactic(auto)]

ghost use Rattle.std.specs.Prelude.{◌≡◌, ◌+◌, ◌*◌, ◌-◌, ◌^◌, ◌≤◌, ◌<◌};
ghost use Rattle.limits.specs.Limits.{max_columns, max_symbols};
ghost use Rattle.board_rules.specs.Width.{positive_part, negative_part, positives, negatives, bits, width_of, width};
ghost use Rattle.board_rules.specs.Table.{SmallRange, row, output_row};

use board_rules::FORMS_LENGTH;
use layout_rules::Output;
use limits::MAX_COLUMNS;

pub fn positive_part(c: i64) -> u64
    ensures { result ≡ positive_part c }
{
    if c < 0 { 0 } else { c.unsigned_abs() }
}

pub fn negative_part(c: i64) -> u64
    ensures { result ≡ negative_part c }
{
    if c < 0 { c.unsigned_abs() } else { 0 }
}

// The smallest k with m below 2^k.
fn bit_count(m: u64) -> u8
    ensures { result ≡ bits m }
{
    (u64::BITS - m.leading_zeros()) as u8
}

// x times 2^shift, where that fits. `integers::shifted` is over the whole numbers; a generic shift would need a trait for one operator.
pub fn scaled(x: u64, shift: u8) -> u64
    requires { (shift < 64) × (x * 2 ^ shift < 2 ^ 64) }
    ensures { result ≡ x * 2 ^ shift }
{
    x << shift
}

// The width over samples of s bits, where the positive coefficients sum to p and the negative ones to −q. Highest, that is
// (2^(s−1) − 1)·p + 2^(s−1)·q, is 2^(s−1)·(p + q) less p, and lowest the same less q: one product serves both.
fn width_of(s: u8, p: u64, q: u64) -> u8
    requires le_s { (1 ≤ s) × (s ≤ 62) }
    requires q_bound { 2 ^ (s - 1) * (p + q) < 2 ^ 62 }
    ensures { result ≡ width_of s p q }
{
    let spread = scaled(p + q, s - 1);
    let high = spread - p;
    let low = spread - q;
    let end = high.max(low.saturating_sub(1));
    bit_count(end) + 1
}

#[derive(Clone, Copy)]
struct Sums {
    positives: u64,
    negatives: u64,
}

// The sums of the positive and of the negative coefficients of a symbol.
fn sums_of(table: &[i64; FORMS_LENGTH], symbol: usize, n: usize) -> Sums
    requires symbol_lt_max_symbols { (symbol < max_symbols) × (n ≤ max_columns) }
    requires symbol_bound { positives (row table.now n symbol) + negatives (row table.now n symbol) < 2 ^ 62 }
    ensures { result ≡ record { positives = positives (row table.now n symbol); negatives = negatives (row table.now n symbol) } }
{
    let mut positives: u64 = 0;
    let mut negatives: u64 = 0;
    for j in 0..n {
        let c = table[symbol * MAX_COLUMNS + j];
        positives += positive_part(c);
        negatives += negative_part(c);
    }
    Sums {
        positives,
        negatives,
    }
}

// The width of a symbol's entry over samples of s bits.
pub fn entry_width(table: &[i64; FORMS_LENGTH], symbol: usize, n: usize, s: u8) -> u8
    requires symbol_lt_max_symbols { (symbol < max_symbols) × (n ≤ max_columns) }
    requires le_s { (1 ≤ s) × (s ≤ 62) }
    requires small_range { SmallRange s (row table.now n symbol) }
    ensures { result ≡ width s (row table.now n symbol) }
{
    let sums = sums_of(table, symbol, n);
    width_of(s, sums.positives, sums.negatives)
}

// The width of an output over samples of s bits: its entry's range, shifted, with the ends exchanged if it is minus.
pub fn output_width(table: &[i64; FORMS_LENGTH], o: Output, n: usize, s: u8) -> u8
    requires symbol_lt_max_symbols { (o.symbol < max_symbols) × ((o.shift < 64) × (n ≤ max_columns)) }
    requires le_s { (1 ≤ s) × (s ≤ 62) }
    requires small_range { SmallRange s (output_row table.now n o) }
    ensures { result ≡ width s (output_row table.now n o) }
{
    if o.sign > 1 {
        return 1;
    }
    let symbol = o.symbol as usize;
    let sums = sums_of(table, symbol, n);
    let positives = scaled(sums.positives, o.shift);
    let negatives = scaled(sums.negatives, o.shift);
    if o.sign == 0 {
        width_of(s, positives, negatives)
    } else {
        width_of(s, negatives, positives)
    }
}
