//! Reading tags and sets of tags.
ghost use Rattle.std.specs.Prelude.{◌≡◌, ◌≤◌, ◌<◌, ◌-◌, length, drop, take, IfOk};
ghost use Rattle.std.specs.Ordering.{is_lt};
ghost use Rattle.df_value_text.specs.code.Answer.{EndsAt, Gives};
ghost use Rattle.df_value_text.specs.ReadTag.{begins_digit, ended, leads_at, longest_at, next_at, numbers_at, some_tags_at, tag_at, tags_at};

use crate::Fault;
use crate::number_reader::{byte_at, byte_stands, short_at};
use df_label::{Tag, TagSet};
use df_memory::NoMemory;
use std::alloc::Global;

/// Whether a digit stands at the place.
fn begins_digit(bytes: &[u8], place: usize) -> bool
    requires { place ≤ length bytes.now }
    ensures { result ≡ begins_digit (drop place bytes.now) }
{
    if place == bytes.len() {
        return false;
    }
    bytes[place].is_ascii_digit()
}

/// Whether a dot stands at the place, and a digit behind it.
fn leads_number(bytes: &[u8], place: usize) -> bool
    requires { place ≤ length bytes.now }
    ensures { result ≡ leads_at (drop place bytes.now) }
{
    if place == bytes.len() || bytes[place] != b'.' {
        return false;
    }
    begins_digit(bytes, place + 1)
}

/// Numbers with dots between them, as long as they go.
pub fn numbers_at(alloc: Global, bytes: &[u8], at: usize) -> Result<(Vec<u32>, usize), Fault>
    requires { at ≤ length bytes.now }
    ensures exact { Gives (λ v. v.items) bytes.now result (numbers_at (drop at bytes.now)) }
    ensures some { IfOk result (λ r. 0 < length r.0.items) }
    ensures onward { IfOk result (λ r. at ≤ r.1) }
{
    let (first, start) = short_at(bytes, at)?;
    let mut numbers = Vec::new(alloc);
    numbers.push(first)?;
    let mut place = start;
    while leads_number(bytes, place) {
        let (number, after) = short_at(bytes, place + 1)?;
        numbers.push(number)?;
        place = after;
    }
    Ok((numbers, place))
}

/// The tag of these numbers.
fn tag_of(alloc: Global, numbers: &[u32]) -> Result<Tag, NoMemory>
    requires { 0 < length numbers.now }
    ensures { IfOk result (λ t. t ≡ numbers.now) }
{
    let last = numbers.len() - 1;
    Tag::new(alloc, &numbers[..last], numbers[last])
}

/// The tag of the numbers at the place, and the place behind them. They are kept aside only where
/// there are several.
fn path_at(alloc: Global, bytes: &[u8], at: usize) -> Result<(Tag, usize), Fault>
    requires { at ≤ length bytes.now }
    ensures exact { Gives (λ t. t) bytes.now result (numbers_at (drop at bytes.now)) }
    ensures onward { IfOk result (λ r. at ≤ r.1) }
{
    let (number, end) = short_at(bytes, at)?;
    if !leads_number(bytes, end) {
        return Ok((Tag::new(alloc, &[], number)?, end));
    }
    let (numbers, place) = numbers_at(alloc, bytes, at)?;
    Ok((tag_of(alloc, numbers.as_slice())?, place))
}

/// The longest tag at the place, and the place behind it.
fn longest_at(alloc: Global, bytes: &[u8], at: usize) -> Result<(Tag, usize), Fault>
    requires { at ≤ length bytes.now }
    ensures exact { Gives (λ t. t) bytes.now result (longest_at (drop at bytes.now)) }
    ensures onward { IfOk result (λ r. at < r.1) }
{
    let (_, start) = byte_at(bytes, at, b'#')?;
    path_at(alloc, bytes, start)
}

/// The place behind a tag: behind a dot a number has to stand.
fn ended(bytes: &[u8], place: usize) -> Result<(), Fault>
    requires { place ≤ length bytes.now }
    ensures { EndsAt bytes.now place result }
{
    if place < bytes.len() && bytes[place] == b'.' {
        return Err(Fault::Bad(place + 1));
    }
    Ok(())
}

/// The tag at the place, and the place behind it.
pub fn tag_at(alloc: Global, bytes: &[u8], at: usize) -> Result<(Tag, usize), Fault>
    requires { at ≤ length bytes.now }
    ensures exact { Gives (λ t. t) bytes.now result (tag_at (drop at bytes.now)) }
{
    let (tag, place) = longest_at(alloc, bytes, at)?;
    ended(bytes, place)?;
    Ok((tag, place))
}

/// The tag at the place, which has to be above this one, and the place behind it.
fn next_at(alloc: Global, bytes: &[u8], at: usize, prev: &Tag) -> Result<(Tag, usize), Fault>
    requires { at ≤ length bytes.now }
    ensures exact { Gives (λ t. t) bytes.now result (next_at prev.now (drop at bytes.now)) }
    ensures onward { IfOk result (λ r. at < r.1) }
{
    let (tag, place) = longest_at(alloc, bytes, at)?;
    if !prev.cmp(&tag).is_lt() {
        return Err(Fault::Low(at));
    }
    ended(bytes, place)?;
    Ok((tag, place))
}

/// At least one tag at the place, in ascending order with commas between them, and the place
/// behind them.
fn some_tags_at(alloc: Global, bytes: &[u8], at: usize) -> Result<(Vec<Tag>, usize), Fault>
    requires { at ≤ length bytes.now }
    ensures exact { Gives (λ v. v.items) bytes.now result (some_tags_at (drop at bytes.now)) }
{
    let (first, start) = tag_at(alloc, bytes, at)?;
    let mut tags = Vec::new(alloc);
    tags.push(first)?;
    let mut place = start;
    'tags: while byte_stands(bytes, place, b',') {
        let (tag, after) = next_at(alloc, bytes, place + 1, &tags[tags.len() - 1])?;
        tags.push(tag)?;
        place = after;
    }
    Ok((tags, place))
}

/// What stands between two places.
pub fn between(bytes: &[u8], at: usize, end: usize) -> &[u8]
    requires order { at ≤ end }
    requires inside { end ≤ length bytes.now }
    ensures { result.now ≡ take (end - at) (drop at bytes.now) }
{
    &bytes[at..end]
}

/// The set of tags at the place, which may be empty, and the place behind it.
pub fn tags_at(alloc: Global, bytes: &[u8], at: usize) -> Result<(TagSet, usize), Fault>
    requires { at ≤ length bytes.now }
    ensures exact { Gives (λ s. s) bytes.now result (tags_at (drop at bytes.now)) }
{
    if !byte_stands(bytes, at, b'#') {
        return Ok((TagSet::new(alloc), at));
    }
    let (tags, place) = some_tags_at(alloc, bytes, at)?;
    let set = TagSet::from_spelled(tags, between(bytes, at, place))?;
    Ok((set, place))
}
