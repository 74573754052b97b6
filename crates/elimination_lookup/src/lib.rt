// Document 01, "A row lists its terms in ascending order of symbol, then exponent": the lookup of a symbol and exponent over a lent slice of terms.
// Rests on `term`, and on `sign_at` of `elimination_rules`.
#![tactic(auto)]

ghost use Rattle.std.specs.Prelude.{◌≡◌, length, position};
ghost use Rattle.elimination_rules.specs.Lookup.{sign_number};
ghost use Rattle.elimination_lookup.specs.Found.{stands, found_in, as_numbers};

use term::Term;

// Where a term stands, and whether it is a minus term.
#[derive(Clone, Copy)]
pub struct Found {
    pub place: usize,
    pub negative: bool,
}

// A term's sign as a number: 1 plus, 2 minus.
pub fn sign_of(t: Term) -> u8
    ensures { result ≡ sign_number t.negative }
{
    if t.negative() { 2 } else { 1 }
}

fn stands(t: Term, symbol: u16, exponent: usize) -> bool
    ensures { result ≡ stands symbol exponent t }
{
    t.symbol() == symbol && t.exponent() as usize == exponent
}

// Where the first term that has the symbol and exponent stands; in a row of document 01 it is the only one.
fn place_of(terms: &[Term], symbol: u16, exponent: usize) -> Option<usize>
    ensures { result ≡ position (stands symbol exponent) terms.now }
{
    terms.iter().position(|t| stands(*t, symbol, exponent))
}

// That term's place, and its sign.
pub fn lookup(terms: &[Term], symbol: u16, exponent: usize) -> Option<Found>
    ensures { as_numbers (length terms.now) result ≡ found_in terms.now symbol exponent }
{
    let place = place_of(terms, symbol, exponent)?;
    let negative = terms[place].negative();
    Some(Found { place, negative })
}
