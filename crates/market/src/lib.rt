// Document 01, "Matrix Market files": read_matrix_market, from a text to a matrix record, refusals 17, 4, 19, 18 and 6. Rests on
// `refusals`, `market_lines`, `market_forms` and `layout_matrix`.
#![tactic(auto)]

ghost use Rattle.std.specs.Prelude.{◌≡◌, ◌+◌, ◌*◌, ◌≤◌, length, get_or, drop};
ghost use mathlib.Core.List.{flat_map};
ghost use Rattle.limits.specs.Size.{SizeLimits};
ghost use Rattle.layout_rules.specs.Bytes.{little_endian};
ghost use Rattle.layout_rules.specs.Matrix.{coefficient_place};
ghost use Rattle.layout_rules.specs.Places.{first_records};
ghost use Rattle.layout_rules.specs.Written.{written};
ghost use Rattle.market_rules.specs.Answer.{answer_of};
ghost use Rattle.market_rules.specs.Market.{file_rows, file_columns, entry_place, entry_index, entries_answer, market_answer, market_buffer};
ghost use Rattle.market.specs.Parts.{comment_bytes, EntriesRead, record_of, record_answer, record_buffer, entries_buffer};

use layout_matrix::{coefficient_place, write_matrix_head};
use layout_records::little_endian::write_word;
use limits::{MAX_COLUMNS, MAX_ROWS};
use market_forms::{Size, entry_of, size_of};
use market_lines::{is_comment, line_end};
use market_rules::MarketAnswer;
use refusals::{Refusal, Refused};

// Where the comments end that stand from a place on.
fn comments_end(text: &[u8], start: usize) -> usize
    requires { start ≤ length text.now }
    ensures value { result ≡ start + comment_bytes (drop start text.now) }
    ensures upper_bound { result ≤ length text.now }
{
    let mut place = start;
    loop {
        let end = line_end(text, place);
        if !is_comment(&text[place..end]) {
            return place;
        }
        place = end;
    }
}

// Entries read one after another: how many, and how many bytes their lines have.
#[derive(Clone, Copy)]
pub struct Entries {
    pub count: usize,
    pub bytes: usize,
}

// Reads entries until the lent numbers are as many, or a line is no entry.
fn read_entries(text: &[u8], words: &mut [u16]) -> Entries
    ensures { EntriesRead text.now words.new result }
{
    let mut bytes = 0;
    for (count, word) in words.iter_mut().enumerate() {
        let end = line_end(text, bytes);
        let Some(entry) = entry_of(&text[bytes..end]) else {
            return Entries { count, bytes };
        };
        *word = entry;
        bytes = end;
    }
    Entries {
        count: words.len(),
        bytes,
    }
}

// The coefficients, row by row, of the entries' numbers, which go column by column; they stand behind the record's head.
fn write_coefficients(m: usize, n: usize, words: &[u16], buffer: &mut [u8])
    requires size_limits { SizeLimits m n }
    requires words_len { length words.now ≡ m * n }
    requires n_in_bounds { coefficient_place (m * n) ≤ length buffer.old }
    ensures { buffer.new ≡ written buffer.old (coefficient_place 0) (flat_map little_endian (first_records (λ k. get_or words.now (entry_index m n k) 0) (m * n))) }
{
    for k in 0..words.len() {
        write_word(buffer, coefficient_place(k), words[(k % n) * m + k / n]);
    }
}

// The record of the entries' numbers, at the buffer's start. Nothing is written before it is known that all of it fits.
fn write_record(size: Size, words: &[u16], buffer: &mut [u8]) -> Result<usize, Refused>
    requires size_limits { SizeLimits size.m size.n }
    requires words_len { length words.now ≡ size.m * size.n }
    ensures value { answer_of result ≡ record_answer (record_of size.m size.n words.now) (length buffer.old) }
    ensures buffer_after { buffer.new ≡ record_buffer (record_of size.m size.n words.now) buffer.old }
{
    let written = coefficient_place(words.len());
    if buffer.len() < written {
        return Err(Refusal::ShortBuffer.at(0));
    }
    write_matrix_head(size.m, size.n, buffer);
    write_coefficients(size.m as usize, size.n as usize, words, buffer);
    Ok(written)
}

// What follows the size line: a refusal, or the record of the entries. The lent numbers are as many as entries are due.
fn write_entries(
    text: &[u8],
    start: usize,
    size: Size,
    words: &mut [u16],
    buffer: &mut [u8],
) -> Result<usize, Refused>
    requires size_limits { SizeLimits size.m size.n }
    requires words_len { length words.old ≡ size.m * size.n }
    requires start_value { start ≡ entry_place text.now 0 }
    requires m_value { size.m ≡ file_rows text.now }
    requires n_value { size.n ≡ file_columns text.now }
    ensures value { answer_of result ≡ entries_answer text.now (length buffer.old) }
    ensures buffer_after { buffer.new ≡ entries_buffer text.now buffer.old }
{
    let read = read_entries(&text[start..], words);
    let place = start + read.bytes;
    if place < text.len() {
        let refusal = if read.count < words.len() {
            Refusal::EntryForm
        } else {
            Refusal::EntryCount
        };
        return Err(refusal.at(place));
    }
    if read.count < words.len() {
        return Err(Refusal::EntryCount.at(place));
    }
    write_record(size, words, buffer)
}

// Room for the entries of every file.
const MAX_ENTRIES: usize = MAX_ROWS * MAX_COLUMNS;

const FIRST_LINE: &[u8] = b"%%MatrixMarket matrix array integer general\n";

// The bytes of the matrix record, or the refusal.
fn read_file(text: &[u8], buffer: &mut [u8]) -> Result<usize, Refused>
    ensures value { answer_of result ≡ market_answer text.now (length buffer.old) }
    ensures buffer_after { buffer.new ≡ market_buffer text.now buffer.old }
{
    let first = line_end(text, 0);
    if &text[..first] != FIRST_LINE {
        return Err(Refusal::FileForm.at(0));
    }
    let place = comments_end(text, first);
    let end = line_end(text, place);
    let Some(size) = size_of(&text[place..end]) else {
        return Err(Refusal::FileForm.at(place));
    };
    if limits::size_outside(size.m, size.n) {
        return Err(Refusal::MatrixSize.at(place));
    }
    let count = (size.m as usize) * (size.n as usize);
    let mut words = [0u16; MAX_ENTRIES];
    write_entries(text, end, size, &mut words[..count], buffer)
}

// The matrix record of a Matrix Market file, at the start of the lent buffer.
pub fn read_matrix_market(text: &[u8], buffer: &mut [u8]) -> MarketAnswer
    ensures value { result ≡ market_answer text.now (length buffer.old) }
    ensures buffer_after { buffer.new ≡ market_buffer text.now buffer.old }
{
    read_file(text, buffer).into()
}
