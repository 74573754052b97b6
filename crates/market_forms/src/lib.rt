// Document 01, "Matrix Market files": the size line and the entries of a file, as `market_rules` has them.
#![tactic(auto)]

ghost use Rattle.std.specs.Prelude.{◌≡◌, min, is_some, IfSome};
ghost use Rattle.text.specs.Decimal.{decimal_value};
ghost use Rattle.market_rules.specs.Forms.{leading_digits, is_size, size_rows, size_columns, is_entry, entry_value};
ghost use Rattle.market_rules.specs.Market.{twos_complement};
ghost use Rattle.market_forms.specs.Ends.{is_number};

use market_lines::{LINE_FEED, read_digits};

// The number that a line is to its end, 65,535 where it is more.
fn number_of(line: &[u8]) -> Option<u32>
    ensures form { is_some result ≡ is_number line.now }
    ensures number { IfSome result (λ number. number ≡ min (decimal_value (leading_digits line.now)) 65535) }
{
    let digits = read_digits(line, 0);
    if digits.end == 0 || line[digits.end..] != [LINE_FEED][..] {
        return None;
    }
    Some(digits.value)
}

// The m and n that a size line says, 255 where they are more.
#[derive(Clone, Copy)]
pub struct Size {
    pub m: u8,
    pub n: u8,
}

// What a size line says; None where a line has another form.
pub fn size_of(line: &[u8]) -> Option<Size>
    ensures form { is_some result ≡ is_size line.now }
    ensures m_and_n { IfSome result (λ size. (size.m ≡ min (size_rows line.now) 255) × (size.n ≡ min (size_columns line.now) 255)) }
{
    let rows = read_digits(line, 0);
    if rows.end == 0 {
        return None;
    }
    let columns = line[rows.end..].strip_prefix(b" ")?;
    let n = number_of(columns)?;
    Some(Size {
        m: rows.value.min(255) as u8,
        n: n.min(255) as u8,
    })
}

// The number whose two bytes say an entry; None where a line is none.
pub fn entry_of(line: &[u8]) -> Option<u16>
    ensures form { is_some result ≡ is_entry line.now }
    ensures word { IfSome result (λ word. word ≡ twos_complement (entry_value line.now)) }
{
    let negative = line.starts_with(b"-");
    let number = number_of(&line[usize::from(negative)..])?;
    let most: u32 = if negative { 32768 } else { 32767 };
    if number > most {
        return None;
    }
    let word = number as u16;
    Some(if negative { word.wrapping_neg() } else { word })
}
