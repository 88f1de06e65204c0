//! The fields of a record, and what they spell.

ghost use Rattle.std.specs.Prelude.{◌≡◌, ◌<◌, IfOk, Some, length, true};
ghost use Rattle.csv.specs.Records.{field_at, fields_of};
ghost use Rattle.df_records.specs.Fields.{are_letters, is_symbol, number, number_from};

use csv::ByteRecord;
use df_frozen::Words;
use df_memory::NoMemory;
use std::alloc::Global;

/// A field of a record, by its place.
pub fn field(row: &ByteRecord, i: usize) -> &[u8]
    requires { i < length (fields_of row.now) }
    ensures { Some result.now ≡ field_at (fields_of row.now) i }
{
    match row.get(i) {
        Some(bytes) => bytes,
        None => unreachable!(),
    }
}

/// The text of a symbol.
pub fn symbol(alloc: Global, bytes: &[u8]) -> Result<Words, NoMemory>
    requires { is_symbol bytes.now ≡ true }
    ensures { IfOk result (λ words. words ≡ bytes.now) }
{
    match str::from_utf8(bytes) {
        Ok(text) => Words::new(alloc, text),
        Err(_) => unreachable!(),
    }
}

/// Whether the bytes are a symbol: 1 to 8 letters `A` to `Z`.
pub fn is_symbol(bytes: &[u8]) -> bool
    ensures { result ≡ is_symbol bytes.now }
{
    !bytes.is_empty() && bytes.len() <= 8 && are_letters(bytes)
}

fn are_letters(bytes: &[u8]) -> bool
    ensures { result ≡ are_letters bytes.now }
{
    for b in bytes {
        if *b < b'A' || *b > b'Z' {
            return false;
        }
    }
    true
}

/// The number that a field spells, from the least to the most, without sign or leading zero.
pub fn number(field: &[u8], least: u32, most: u32) -> Option<u32>
    ensures { result ≡ number least most field.now }
{
    if field.is_empty() || (field.len() > 1 && field[0] == b'0') {
        return None;
    }
    let value = number_of(field, most)?;
    if value < least { None } else { Some(value) }
}

fn number_of(field: &[u8], most: u32) -> Option<u32>
    ensures { result ≡ number_from most 0 field.now }
{
    let mut value = 0u64;
    for b in field {
        if *b < b'0' || *b > b'9' {
            return None;
        }
        value = value * 10 + (*b - b'0') as u64;
        if value > most as u64 {
            return None;
        }
    }
    Some(value as u32)
}
