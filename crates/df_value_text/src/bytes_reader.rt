//! Reading bytes in hexadecimal digits.
ghost use Rattle.std.specs.Prelude.{◌≡◌, ◌≤◌, ◌<◌, length, drop, true, IfOk};
ghost use Rattle.df_value_text.specs.code.Answer.{Gives};
ghost use Rattle.df_value_text.specs.ReadBytes.{bytes_at, hex_byte, hex_value, is_hex, pairs_at};

use crate::Fault;
use crate::label_reader::text_at;
use crate::number_reader::byte_at;
use df_frozen::Blob;
use std::alloc::Global;

/// Whether this is a hexadecimal digit, 0 to 9 or a to f.
pub fn is_hex(byte: u8) -> bool
    ensures { result ≡ is_hex byte }
{
    byte.is_ascii_digit() || (b'a' <= byte && byte <= b'f')
}

/// What the digit stands for.
fn hex_value(digit: u8) -> u8
    requires { is_hex digit ≡ true }
    ensures value { result ≡ hex_value digit }
    ensures small { result < 16 }
{
    if digit < 58 { digit - 48 } else { digit - 87 }
}

/// The byte of two digits.
pub fn hex_byte(high: u8, low: u8) -> u8
    requires high { is_hex high ≡ true }
    requires low { is_hex low ≡ true }
    ensures { result ≡ hex_byte high low }
{
    16 * hex_value(high) + hex_value(low)
}

/// As many pairs of digits as stand at the place, and the place behind them.
fn pairs_at(alloc: Global, bytes: &[u8], at: usize) -> Result<(Vec<u8>, usize), Fault>
    requires { at ≤ length bytes.now }
    ensures exact { Gives (λ v. v.items) bytes.now result (pairs_at (drop at bytes.now)) }
    ensures onward { IfOk result (λ r. at ≤ r.1) }
{
    let mut content = Vec::new(alloc);
    let mut place = at;
    while place < bytes.len() && is_hex(bytes[place]) {
        if place + 1 == bytes.len() || !is_hex(bytes[place + 1]) {
            return Err(Fault::Bad(place + 1));
        }
        content.push(hex_byte(bytes[place], bytes[place + 1]))?;
        place += 2;
    }
    Ok((content, place))
}

/// The bytes at the place, in their quotes, and the place behind them.
pub fn bytes_at(alloc: Global, bytes: &[u8], at: usize) -> Result<(Blob, usize), Fault>
    requires { at ≤ length bytes.now }
    ensures exact { Gives (λ b. b) bytes.now result (bytes_at (drop at bytes.now)) }
    ensures onward { IfOk result (λ r. at < r.1) }
{
    let (_, start) = text_at(bytes, at, b"x\"")?;
    let (content, quote) = pairs_at(alloc, bytes, start)?;
    let (_, end) = byte_at(bytes, quote, b'"')?;
    Ok((Blob::from(content), end))
}
