// Document 01, "Digits and terms": a term has a symbol, an exponent (its left shift) and a sign. Rests on `limits`.
// The fields are private, so that nothing makes a term but the two constructors, and every term is within its limits.
#![tactic(auto)]

ghost use Rattle.std.specs.Prelude.{◌≡◌, ◌≤◌};

use limits::{MAX_SYMBOLS, POSITIONS, TERM_SYMBOLS};

#[derive(Clone, Copy)]
pub struct Term {
    symbol: u16,
    exponent: u8,
    negative: bool,
}

impl Term {
    // "Two limits belong to the term itself: highest exponent 15, highest symbol 259"; the first is that of every shift too.
    pub const MAX_EXPONENT: u8 = (POSITIONS - 1) as u8;

    pub const MAX_SYMBOL: u16 = (TERM_SYMBOLS - 1) as u16;

    // "may have any operation's symbol, to n + 504 − 1": the limit of a joined term.
    pub const MAX_JOINED_SYMBOL: u16 = (MAX_SYMBOLS - 1) as u16;

    pub fn new(symbol: u16, exponent: u8, negative: bool) -> Term
        requires symbol_within { symbol ≤ Term.MAX_SYMBOL }
        requires exponent_within { exponent ≤ Term.MAX_EXPONENT }
        ensures { result ≡ record { symbol = symbol; exponent = exponent; negative = negative } }
    {
        Term {
            symbol,
            exponent,
            negative,
        }
    }

    // The term that two terms are joined to: its exponent is 0.
    pub fn joined(symbol: u16, negative: bool) -> Term
        requires { symbol ≤ Term.MAX_JOINED_SYMBOL }
        ensures { result ≡ record { symbol = symbol; exponent = 0; negative = negative } }
    {
        Term {
            symbol,
            exponent: 0,
            negative,
        }
    }

    pub fn symbol(self) -> u16
        ensures { result ≡ self.symbol }
    {
        self.symbol
    }

    pub fn exponent(self) -> u8
        ensures { result ≡ self.exponent }
    {
        self.exponent
    }

    pub fn negative(self) -> bool
        ensures { result ≡ self.negative }
    {
        self.negative
    }
}
