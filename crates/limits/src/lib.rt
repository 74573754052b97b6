// Document 01's limits as constants of the code, each once: those that it states, then those that are worked out from them. Rests on
// nothing. specs/Limits.antt has the same numbers under the names that contracts cite; specs/Size.antt says which m, n and sample
// widths are within.
#![tactic(auto)]

ghost use Rattle.std.specs.Prelude.{◌≡◌};
ghost use Rattle.limits.specs.Size.{outside, size_outside, sample_width_outside};

// "m (1 byte), n (1 byte), each 1 to 8".
pub const MAX_ROWS: usize = 8;

pub const MAX_COLUMNS: usize = 8;

// "Positions run 0 to 15".
pub const POSITIONS: usize = 16;

// "a sample width from 8 to 24".
pub const LEAST_SAMPLE_WIDTH: u8 = 8;

pub const MOST_SAMPLE_WIDTH: u8 = 24;

// "a head of kind 2 states no width: its samples have 16 bits".
pub const UNSTATED_WIDTH: u8 = 16;

// "operations (2 bytes, at most 504)".
pub const MAX_OPERATIONS: usize = 504;

// "widths read are at most 44".
pub const MAX_WIDTH: u8 = 44;

// "at most 8 digits are nonzero": no two of them are neighbours.
pub const MAX_DIGITS: usize = (POSITIONS + 1) / 2;

// The most terms of a row.
pub const MAX_TERMS: usize = MAX_COLUMNS * MAX_DIGITS;

// The most pairs of terms in all rows.
pub const MAX_PAIRS: usize = MAX_ROWS * (MAX_TERMS * (MAX_TERMS - 1) / 2);

// "Divisors number at most 252": each takes the place of at least two operations.
pub const MAX_DIVISORS: usize = MAX_OPERATIONS / 2;

// The symbols of terms in rows: inputs and divisors.
pub const TERM_SYMBOLS: usize = MAX_COLUMNS + MAX_DIVISORS;

// The most symbols of a netlist: inputs and operations.
pub const MAX_SYMBOLS: usize = MAX_COLUMNS + MAX_OPERATIONS;

// Whether a number is outside 1 to the most.
fn outside(most: usize, x: u8) -> bool
    ensures { result ≡ outside most x }
{
    x < 1 || x as usize > most
}

// Whether m or n is outside 1 to 8.
pub fn size_outside(m: u8, n: u8) -> bool
    ensures { result ≡ size_outside m n }
{
    outside(MAX_ROWS, m) || outside(MAX_COLUMNS, n)
}

// Whether a sample width is outside 8 to 24.
pub fn sample_width_outside(width: u8) -> bool
    ensures { result ≡ sample_width_outside width }
{
    width < LEAST_SAMPLE_WIDTH || width > MOST_SAMPLE_WIDTH
}
