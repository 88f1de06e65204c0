//! Where in a literal a byte stands, what it adds there, and where it leads.
ghost use Rattle.std.specs.Prelude.{◌≡◌, ◌≤◌, []};
ghost use Rattle.df_value_text.specs.Counting.{begins, begins_literal, begun, behind, character, closes, named, next, weight};
ghost use Rattle.df_value_text.specs.declared.place.Place.TheVariants as place;

use crate::brackets::Brackets;
use crate::bytes_reader::is_hex;
use df_frozen::is_name_byte;

/// Where in a literal a byte stands.
#[derive(Clone, Copy)]
pub enum Place {
    /// Where a value begins.
    Before,
    Number,
    Words,
    /// Behind a `\`.
    Escape,
    /// Behind the first digit of an escape.
    EscapeDigit,
    /// Behind an `x`.
    Marked,
    Bytes,
    /// Behind the first digit of a byte.
    BytesDigit,
    Name,
    /// Behind a value.
    Behind,
    /// Behind the whole value, or behind a byte that can't stand.
    Done,
}

/// Whether a literal begins with this byte.
fn begins_literal(byte: u8) -> bool
    ensures { result ≡ begins_literal byte }
{
    byte.is_ascii_digit()
        || byte == b'-'
        || byte == b'"'
        || byte == b'x'
        || byte == b'['
        || byte == b'('
}

/// Whether the byte at the place begins a value.
pub fn begins(place: Place, byte: u8) -> bool
    ensures { result ≡ begins place byte }
{
    match place {
        Place::Before => begins_literal(byte),
        _ => false,
    }
}

/// How many bytes the character has that begins with this byte: none where it goes on with it.
fn character(byte: u8) -> u64
    ensures value { result ≡ character byte }
    ensures few { result ≤ 4 }
{
    match byte {
        0..=127 => 1,
        128..=193 => 0,
        194..=223 => 2,
        224..=239 => 3,
        240..=244 => 4,
        _ => 0,
    }
}

/// What the byte at the place adds to the bytes.
pub fn weight(place: Place, byte: u8) -> u64
    ensures value { result ≡ weight place byte }
    ensures few { result ≤ 4 }
{
    match place {
        Place::Words => if byte == b'"' { 0 } else { character(byte) },
        Place::Bytes => u64::from(is_hex(byte)),
        Place::Name => u64::from(is_name_byte(byte)),
        _ => 0,
    }
}

/// Whether this is `]` or `)`.
pub fn closes(byte: u8) -> bool
    ensures { result ≡ closes byte }
{
    byte == b']' || byte == b')'
}

/// Where a byte behind a value leads.
fn behind(brackets: &Brackets, byte: u8) -> Place
    ensures { result ≡ behind brackets.now byte }
{
    match brackets.innermost() {
        None => Place::Done,
        Some(map) => {
            if byte == b',' {
                if map { Place::Name } else { Place::Before }
            } else if closes(byte) {
                Place::Behind
            } else {
                Place::Done
            }
        }
    }
}

/// Where the first byte of a value leads.
fn begun(byte: u8) -> Place
    ensures { result ≡ begun byte }
{
    if byte.is_ascii_digit() || byte == b'-' {
        Place::Number
    } else if byte == b'"' {
        Place::Words
    } else if byte == b'x' {
        Place::Marked
    } else if byte == b'[' {
        Place::Before
    } else if byte == b'(' {
        Place::Name
    } else if closes(byte) {
        Place::Behind
    } else {
        Place::Done
    }
}

/// Where a byte of a name leads.
fn named(byte: u8) -> Place
    ensures { result ≡ named byte }
{
    if byte == b'=' {
        Place::Before
    } else if is_name_byte(byte) {
        Place::Name
    } else if closes(byte) {
        Place::Behind
    } else {
        Place::Done
    }
}

/// Where a byte of words leads.
fn worded(byte: u8) -> Place
    ensures { result ≡ next place.Words [] byte }
{
    match byte {
        b'"' => Place::Behind,
        b'\\' => Place::Escape,
        _ => Place::Words,
    }
}

/// Where a byte of bytes leads.
fn paired(byte: u8) -> Place
    ensures { result ≡ next place.Bytes [] byte }
{
    if byte == b'"' {
        Place::Behind
    } else if is_hex(byte) {
        Place::BytesDigit
    } else {
        Place::Done
    }
}

/// Where the byte at the place leads.
pub fn next(place: Place, brackets: &Brackets, byte: u8) -> Place
    ensures { result ≡ next place brackets.now byte }
{
    match place {
        Place::Before => begun(byte),
        Place::Number if byte.is_ascii_digit() => Place::Number,
        Place::Number | Place::Behind => behind(brackets, byte),
        Place::Words => worded(byte),
        Place::Escape if byte != b'"' && byte != b'\\' => Place::EscapeDigit,
        Place::Escape | Place::EscapeDigit => Place::Words,
        Place::Marked if byte == b'"' => Place::Bytes,
        Place::Bytes => paired(byte),
        Place::BytesDigit => Place::Bytes,
        Place::Name => named(byte),
        Place::Marked | Place::Done => Place::Done,
    }
}
