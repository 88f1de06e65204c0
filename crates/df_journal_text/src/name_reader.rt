//! Reading the names of units and events.
ghost use Rattle.std.specs.Prelude.{◌≤◌, length, drop};
ghost use Rattle.df_value_text.specs.ReadTag.{numbers_at};
ghost use Rattle.df_value_text.specs.code.Answer.{Gives};
ghost use Rattle.df_journal_text.specs.ReadCall.{braced_at};
ghost use Rattle.df_journal_text.specs.ReadName.{event_at, instance_at, unit_at};

use df_label::TagSet;
use df_unit::{EventName, Path, UnitName};
use df_value_text::{Fault, byte_at, byte_stands, numbers_at, short_at, tags_at};
use std::alloc::Global;

/// The tags in braces at the place, and the place behind them.
pub fn braced_at(alloc: Global, bytes: &[u8], at: usize) -> Result<(TagSet, usize), Fault>
    requires { at ≤ length bytes.now }
    ensures { Gives (λ s. s) bytes.now result (braced_at (drop at bytes.now)) }
{
    let (_, start) = byte_at(bytes, at, b'{')?;
    let (tags, brace) = tags_at(alloc, bytes, start)?;
    let (_, end) = byte_at(bytes, brace, b'}')?;
    Ok((tags, end))
}

/// `/` at the place, a subscription's number and tags in braces, and the place behind them.
fn instance_at(alloc: Global, bytes: &[u8], at: usize) -> Result<((u32, TagSet), usize), Fault>
    requires { at ≤ length bytes.now }
    ensures { Gives (λ i. (i.0, i.1)) bytes.now result (instance_at (drop at bytes.now)) }
{
    let (_, start) = byte_at(bytes, at, b'/')?;
    let (sub, brace) = short_at(bytes, start)?;
    let (s, end) = braced_at(alloc, bytes, brace)?;
    Ok(((sub, s), end))
}

/// The path at the place, and the place behind it. A path of one number takes no memory.
fn path_at(alloc: Global, bytes: &[u8], at: usize) -> Result<(Path, usize), Fault>
    requires { at ≤ length bytes.now }
    ensures { Gives (λ p. p) bytes.now result (numbers_at (drop at bytes.now)) }
{
    let (first, place) = short_at(bytes, at)?;
    if !byte_stands(bytes, place, b'.') {
        return Ok((Path::root(first), place));
    }
    let (numbers, end) = numbers_at(alloc, bytes, at)?;
    Ok((Path::new(numbers), end))
}

/// The unit at the place, and the place behind it.
pub fn unit_at(alloc: Global, bytes: &[u8], at: usize) -> Result<(UnitName, usize), Fault>
    requires { at ≤ length bytes.now }
    ensures { Gives (λ u. u) bytes.now result (unit_at (drop at bytes.now)) }
{
    let (owner, place) = path_at(alloc, bytes, at)?;
    if !byte_stands(bytes, place, b'/') {
        return Ok((UnitName::Root(owner), place));
    }
    let ((sub, s), end) = instance_at(alloc, bytes, place)?;
    Ok((UnitName::Managed { owner, sub, s }, end))
}

/// The event at the place, and the place behind it.
pub fn event_at(alloc: Global, bytes: &[u8], at: usize) -> Result<(EventName, usize), Fault>
    requires { at ≤ length bytes.now }
    ensures { Gives (λ e. e) bytes.now result (event_at (drop at bytes.now)) }
{
    let (unit, sign) = unit_at(alloc, bytes, at)?;
    let (_, start) = byte_at(bytes, sign, b'!')?;
    let (number, end) = short_at(bytes, start)?;
    Ok((EventName { unit, number }, end))
}
