//! Numbers, in decimal digits.

ghost use Rattle.std.specs.Fmt.{signed_decimal};
ghost use Rattle.std.specs.Prelude.{◌≡◌, ◌<◌, ◌≤◌, ◌+◌, ◌++◌, OnOk, decimal, vec_capacity, vec_len};

use df_memory::NoMemory;
use itoa::Buffer;

/// Puts a number below 100 where there is room for its digits.
#[inline(always)]
#[tactic(auto, using(std::proofs::lemmas::Fmt::decimal_digit, crate::proofs::Digits::two_digits))]
fn put_two(number: u32, to: &mut Vec<u8>)
    requires few { number < 100 }
    requires room { vec_len to.old + 2 ≤ vec_capacity to.old }
    ensures digits { to.new.items ≡ to.old.items ++ decimal number }
    ensures capacity { vec_capacity to.new ≡ vec_capacity to.old }
    ensures len { vec_len to.new ≤ vec_len to.old + 2 }
{
    if number < 10 {
        to.push_reserved(b'0' + number as u8);
        return;
    }
    to.push_reserved(b'0' + (number / 10) as u8);
    to.push_reserved(b'0' + (number % 10) as u8);
}

/// Puts a number below 10,000 where there is room for its digits.
#[inline(always)]
#[tactic(auto, using(crate::proofs::Digits::last_two))]
pub fn put_few(number: u32, to: &mut Vec<u8>)
    requires few { number < 10000 }
    requires room { vec_len to.old + 4 ≤ vec_capacity to.old }
    ensures digits { to.new.items ≡ to.old.items ++ decimal number }
    ensures capacity { vec_capacity to.new ≡ vec_capacity to.old }
    ensures len { vec_len to.new ≤ vec_len to.old + 4 }
{
    if number < 100 {
        return put_two(number, to);
    }
    put_two(number / 10 / 10, to);
    to.push_reserved(b'0' + (number / 10 % 10) as u8);
    to.push_reserved(b'0' + (number % 10) as u8);
}

/// Appends a whole number: a number, or `-` and a number that isn't 0. The commonest have few
/// digits.
pub fn append_whole(number: i64, to: &mut Vec<u8>) -> Result<(), NoMemory>
    ensures { OnOk result (to.new.items ≡ to.old.items ++ signed_decimal number) }
{
    if number < 0 || number >= 10_000 {
        return append_long(number, to);
    }
    to.reserve(4)?;
    put_few(number as u32, to);
    Ok(())
}

/// Appends a whole number of any digits.
#[inline(never)]
fn append_long(number: i64, to: &mut Vec<u8>) -> Result<(), NoMemory>
    ensures { OnOk result (to.new.items ≡ to.old.items ++ signed_decimal number) }
{
    let mut buffer = Buffer::new();
    to.extend_from_slice(buffer.format(number).as_bytes())?;
    Ok(())
}
