//! Reading numbers.
ghost use Rattle.std.specs.Prelude.{◌≡◌, ◌≤◌, ◌<◌, ◌^◌, ◌∷◌, [], length, drop, IfOk};
ghost use Rattle.df_format.specs.Reading.{text_at};
ghost use Rattle.df_value_text.specs.code.Answer.{Gives};
ghost use Rattle.df_value_text.specs.ReadTag.{short_at};
ghost use Rattle.df_value_text.specs.Number.{begins_with, number_at, digits_at};
ghost use Rattle.df_value_text.specs.ReadWhole.{minus, positive_at, whole_at};

use crate::Fault;

/// The further digits of a number that begins with `first`, as long as it is at most `most`, and
/// the place behind them.
fn digits_at(bytes: &[u8], at: usize, most: u64, first: u64) -> (u64, usize)
    requires place { at ≤ length bytes.now }
    requires first { first ≤ most }
    ensures place { result.1 ≤ length bytes.now }
    ensures onward { at ≤ result.1 }
    ensures small { result.0 ≤ most }
    ensures value { (result.0, drop result.1 bytes.now) ≡ digits_at most first (drop at bytes.now) }
{
    let mut number = first;
    let mut place = at;
    while place < bytes.len() && bytes[place].is_ascii_digit() {
        let digit = u64::from(bytes[place] - b'0');
        if digit > most || number > (most - digit) / 10 {
            break;
        }
        number = number * 10 + digit;
        place += 1;
    }
    (number, place)
}

/// The longest number of at most `most` at the place, and the place behind it.
pub fn number_at(bytes: &[u8], at: usize, most: u64) -> Result<(u64, usize), Fault>
    requires { at ≤ length bytes.now }
    ensures exact { Gives (λ n. n) bytes.now result (number_at most (drop at bytes.now)) }
    ensures small { IfOk result (λ r. r.0 ≤ most) }
    ensures onward { IfOk result (λ r. at < r.1) }
{
    if at == bytes.len() || !bytes[at].is_ascii_digit() {
        return Err(Fault::Bad(at));
    }
    let digit = u64::from(bytes[at] - b'0');
    if digit > most {
        return Err(Fault::Bad(at));
    }
    if digit == 0 {
        return Ok((0, at + 1));
    }
    Ok(digits_at(bytes, at + 1, most, digit))
}

/// The longest number of 32 bits at the place, and the place behind it.
pub fn short_at(bytes: &[u8], at: usize) -> Result<(u32, usize), Fault>
    requires { at ≤ length bytes.now }
    ensures exact { Gives (λ n. n) bytes.now result (short_at (drop at bytes.now)) }
    ensures onward { IfOk result (λ r. at < r.1) }
{
    let (number, place) = number_at(bytes, at, u64::from(u32::MAX))?;
    Ok((number as u32, place))
}

/// The place behind this byte, which has to stand at the place.
pub fn byte_at(bytes: &[u8], at: usize, byte: u8) -> Result<((), usize), Fault>
    requires { at ≤ length bytes.now }
    ensures exact { Gives (λ none. byte ∷ []) bytes.now result
        (text_at (byte ∷ []) (drop at bytes.now)) }
    ensures onward { IfOk result (λ r. at < r.1) }
{
    if at == bytes.len() || bytes[at] != byte {
        return Err(Fault::Bad(at));
    }
    Ok(((), at + 1))
}

/// Whether this byte stands at the place.
pub fn byte_stands(bytes: &[u8], place: usize, byte: u8) -> bool
    requires { place ≤ length bytes.now }
    ensures { result ≡ begins_with byte (drop place bytes.now) }
{
    if place == bytes.len() {
        return false;
    }
    bytes[place] == byte
}

/// The longest number of at most `most` at the place, which isn't 0, and the place behind it.
fn positive_at(bytes: &[u8], at: usize, most: u64) -> Result<(u64, usize), Fault>
    requires { at ≤ length bytes.now }
    ensures exact { Gives (λ n. n) bytes.now result (positive_at most (drop at bytes.now)) }
    ensures small { IfOk result (λ r. r.0 ≤ most) }
    ensures onward { IfOk result (λ r. at < r.1) }
{
    if at == bytes.len() || bytes[at] == b'0' {
        return Err(Fault::Bad(at));
    }
    number_at(bytes, at, most)
}

/// The number that is this far below 0.
fn below_zero(distance: u64) -> i64
    requires positive { 0 < distance }
    requires small { distance ≤ 2 ^ 63 }
    ensures { result ≡ minus distance }
{
    -((distance - 1) as i64) - 1
}

/// The longest whole number at the place, and the place behind it.
pub fn whole_at(bytes: &[u8], at: usize) -> Result<(i64, usize), Fault>
    requires { at ≤ length bytes.now }
    ensures exact { Gives (λ z. z) bytes.now result (whole_at (drop at bytes.now)) }
    ensures onward { IfOk result (λ r. at < r.1) }
{
    if byte_stands(bytes, at, b'-') {
        let (distance, end) = positive_at(bytes, at + 1, 1 << 63)?;
        return Ok((below_zero(distance), end));
    }
    let (number, end) = number_at(bytes, at, i64::MAX as u64)?;
    Ok((number as i64, end))
}
