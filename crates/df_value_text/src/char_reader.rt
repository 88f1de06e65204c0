//! Reading the characters of words.
ghost use Rattle.std.specs.Prelude.{◌≡◌, ◌≤◌, ◌<◌, length, drop, IfOk};
ghost use Rattle.df_format.specs.Reading.{with_front};
ghost use Rattle.df_value_text.specs.code.Answer.{Gives};
ghost use Rattle.df_value_text.specs.ReadEscape.{ascii_at, control_at, escape_at, is_high, is_low, is_plain, is_quoted};
ghost use Rattle.df_value_text.specs.ReadWide.{is_between, is_lead, least_second, most_second, trail_at, trail_length, wide_at};
ghost use Rattle.df_format.specs.Reading.{starts};
ghost use Rattle.df_value_text.specs.ReadWords.{begins_char, char_at};

use crate::Fault;
use crate::bytes_reader::{hex_byte, is_hex};
use crate::number_reader::byte_stands;

/// Whether this is `"` or `\`.
fn is_quoted(byte: u8) -> bool
    ensures { result ≡ is_quoted byte }
{
    byte == b'"' || byte == b'\\'
}

/// Whether the byte stands for itself.
pub fn is_plain(byte: u8) -> bool
    ensures { result ≡ is_plain byte }
{
    32 <= byte && byte < 127 && !is_quoted(byte)
}

/// Whether this is the first digit of a control byte.
fn is_high(digit: u8) -> bool
    ensures { result ≡ is_high digit }
{
    digit == b'0' || digit == b'1' || digit == b'7'
}

/// Whether this is the second digit of a control byte, behind the first.
fn is_low(high: u8, digit: u8) -> bool
    ensures { result ≡ is_low high digit }
{
    if high == b'7' {
        digit == b'f'
    } else {
        is_hex(digit)
    }
}

/// The control byte in two digits at the place, and the place behind them.
fn control_at(bytes: &[u8], at: usize) -> Result<(u8, usize), Fault>
    requires { at ≤ length bytes.now }
    ensures exact { Gives (λ b. b) bytes.now result (control_at (drop at bytes.now)) }
    ensures onward { IfOk result (λ r. at < r.1) }
{
    if at == bytes.len() || !is_high(bytes[at]) {
        return Err(Fault::Bad(at));
    }
    if at + 1 == bytes.len() || !is_low(bytes[at], bytes[at + 1]) {
        return Err(Fault::Bad(at + 1));
    }
    Ok((hex_byte(bytes[at], bytes[at + 1]), at + 2))
}

/// The byte that is spelled behind a `\`, and the place behind it.
fn escape_at(bytes: &[u8], at: usize) -> Result<(u8, usize), Fault>
    requires { at ≤ length bytes.now }
    ensures exact { Gives (λ b. b) bytes.now result (escape_at (drop at bytes.now)) }
    ensures onward { IfOk result (λ r. at < r.1) }
{
    if at < bytes.len() && is_quoted(bytes[at]) {
        return Ok((bytes[at], at + 1));
    }
    control_at(bytes, at)
}

/// The byte of ASCII that is spelled at the place, and the place behind it.
fn ascii_at(bytes: &[u8], at: usize) -> Result<(u8, usize), Fault>
    requires { at ≤ length bytes.now }
    ensures exact { Gives (λ b. b) bytes.now result (ascii_at (drop at bytes.now)) }
    ensures onward { IfOk result (λ r. at < r.1) }
{
    if byte_stands(bytes, at, b'\\') {
        return escape_at(bytes, at + 1);
    }
    if at == bytes.len() || !is_plain(bytes[at]) {
        return Err(Fault::Bad(at));
    }
    Ok((bytes[at], at + 1))
}

/// Whether a byte from `least` to `most` stands at the place.
fn stands_between(bytes: &[u8], place: usize, least: u8, most: u8) -> bool
    requires { place ≤ length bytes.now }
    ensures { result ≡ starts (is_between least most) (drop place bytes.now) }
{
    if place == bytes.len() {
        return false;
    }
    least <= bytes[place] && bytes[place] <= most
}

/// Whether this is the first byte of a character of several bytes.
fn is_lead(byte: u8) -> bool
    ensures { result ≡ is_lead byte }
{
    194 <= byte && byte <= 244
}

/// How many bytes stand behind this first one.
fn trail_length(lead: u8) -> usize
    ensures { result ≡ trail_length lead }
{
    if lead < 224 {
        1
    } else if lead < 240 {
        2
    } else {
        3
    }
}

/// The least second byte behind this first one.
fn least_second(lead: u8) -> u8
    ensures { result ≡ least_second lead }
{
    match lead {
        224 => 160,
        240 => 144,
        _ => 128,
    }
}

/// The greatest second byte behind this first one.
fn most_second(lead: u8) -> u8
    ensures { result ≡ most_second lead }
{
    match lead {
        237 => 159,
        244 => 143,
        _ => 191,
    }
}

/// Appends so many bytes from the place on, the first of them from `least` to `most`, and gives the
/// place behind them.
fn append_trail(
    bytes: &[u8],
    at: usize,
    count: usize,
    least: u8,
    most: u8,
    text: &mut Vec<u8>,
) -> Result<((), usize), Fault>
    requires { at ≤ length bytes.now }
    ensures exact { Gives (λ none. text.new.items) bytes.now result
        (with_front text.old.items (trail_at count least most (drop at bytes.now))) }
    ensures onward { IfOk result (λ r. at ≤ r.1) }
{
    if count == 0 {
        return Ok(((), at));
    }
    if !stands_between(bytes, at, least, most) {
        return Err(Fault::Bad(at));
    }
    text.push(bytes[at])?;
    append_trail(bytes, at + 1, count - 1, 128, 191, text)
}

/// Appends the character of several bytes at the place, and gives the place behind it.
fn append_wide(bytes: &[u8], at: usize, text: &mut Vec<u8>) -> Result<((), usize), Fault>
    requires { at ≤ length bytes.now }
    ensures exact { Gives (λ none. text.new.items) bytes.now result
        (with_front text.old.items (wide_at (drop at bytes.now))) }
    ensures onward { IfOk result (λ r. at < r.1) }
{
    if at == bytes.len() || !is_lead(bytes[at]) {
        return Err(Fault::Bad(at));
    }
    let lead = bytes[at];
    text.push(lead)?;
    append_trail(
        bytes,
        at + 1,
        trail_length(lead),
        least_second(lead),
        most_second(lead),
        text,
    )
}

/// Appends the bytes for which the spelled character at the place stands, and gives the place
/// behind it.
pub fn append_char(bytes: &[u8], at: usize, text: &mut Vec<u8>) -> Result<((), usize), Fault>
    requires { at ≤ length bytes.now }
    ensures exact { Gives (λ none. text.new.items) bytes.now result
        (with_front text.old.items (char_at (drop at bytes.now))) }
    ensures onward { IfOk result (λ r. at < r.1) }
{
    if stands_between(bytes, at, 0, 127) {
        let (byte, end) = ascii_at(bytes, at)?;
        text.push(byte)?;
        return Ok(((), end));
    }
    append_wide(bytes, at, text)
}

/// Whether a spelled character begins at the place.
pub fn char_stands(bytes: &[u8], place: usize) -> bool
    requires { place ≤ length bytes.now }
    ensures { result ≡ starts begins_char (drop place bytes.now) }
{
    if place == bytes.len() {
        return false;
    }
    bytes[place] == b'\\' || is_plain(bytes[place]) || is_lead(bytes[place])
}
