//! Reading values that nest.
ghost use Rattle.std.specs.Prelude.{◌≡◌, ◌≤◌, ◌<◌, ◌&&◌, [], ◌∷◌, ◌++◌, Some, length, drop, IfOk, IfErr, OnOk};
ghost use Rattle.std.specs.Ordering.{is_lt};
ghost use Rattle.df_frozen.specs.Name.{name_cmp};
ghost use Rattle.df_frozen.specs.Place.{push_at};
ghost use Rattle.df_frozen.specs.Value.{named, plain};
ghost use Rattle.df_value_text.specs.code.Answer.{Gives};
ghost use Rattle.df_value_text.specs.Number.{begins_with};
ghost use Rattle.df_value_text.specs.ReadValue.{entry_at, given_at, greatest, higher_at, leaf_at, list_at, map_at, next_entry_at, value_at};
ghost use Rattle.df_value_text.specs.declared.refused.Fault.TheVariants as fault;

use crate::Fault;
use crate::bytes_reader::bytes_at;
use crate::name_reader::name_at;
use crate::number_reader::{byte_at, byte_stands, whole_at};
use crate::words_reader::words_at;
use df_frozen::{Entries, Items, LONGEST_NAME, Name, Value};
use df_memory::NoMemory;
use std::alloc::Global;

/// No name is above it.
const GREATEST: [u8; LONGEST_NAME] = [b'z'; LONGEST_NAME];

/// The longest value at the place, and the place behind it. It takes a stack as deep as the value.
#[cycle(read)]
pub(crate) fn value_at(alloc: Global, bytes: &[u8], at: usize) -> Result<(Value, usize), Fault>
    requires { at ≤ length bytes.now }
    ensures exact { Gives plain bytes.now result (value_at (drop at bytes.now)) }
    ensures onward { IfOk result (λ r. at < r.1) }
{
    if byte_stands(bytes, at, b'[') {
        return list_at(alloc, bytes, at + 1);
    }
    if byte_stands(bytes, at, b'(') {
        return map_at(alloc, bytes, at + 1);
    }
    leaf_at(alloc, bytes, at)
}

/// The words, bytes or number at the place, and the place behind it.
fn leaf_at(alloc: Global, bytes: &[u8], at: usize) -> Result<(Value, usize), Fault>
    requires { at ≤ length bytes.now }
    ensures exact { Gives plain bytes.now result (leaf_at (drop at bytes.now)) }
    ensures onward { IfOk result (λ r. at < r.1) }
{
    if byte_stands(bytes, at, b'"') {
        let (words, end) = words_at(alloc, bytes, at)?;
        return Ok((Value::Words(words), end));
    }
    if byte_stands(bytes, at, b'x') {
        let (blob, end) = bytes_at(alloc, bytes, at)?;
        return Ok((Value::Bytes(blob), end));
    }
    let (number, end) = whole_at(bytes, at)?;
    Ok((Value::Int(number), end))
}

/// The list whose `[` stands before the place, and the place behind it.
#[cycle(read)]
fn list_at(alloc: Global, bytes: &[u8], at: usize) -> Result<(Value, usize), Fault>
    requires { at ≤ length bytes.now }
    ensures exact { Gives plain bytes.now result (list_at value_at (drop at bytes.now)) }
    ensures onward { IfOk result (λ r. at < r.1) }
{
    let mut list = Value::Items(Items::new(alloc));
    if byte_stands(bytes, at, b']') {
        return Ok((list, at + 1));
    }
    let (first, start) = value_at(alloc, bytes, at)?;
    push(&mut list, first)?;
    let mut place = start;
    'values: while byte_stands(bytes, place, b',') {
        let (value, after) = value_at(alloc, bytes, place + 1)?;
        push(&mut list, value)?;
        place = after;
    }
    let (_, end) = byte_at(bytes, place, b']')?;
    Ok((list, end))
}

/// The map whose `(` stands before the place, and the place behind it.
#[cycle(read)]
fn map_at(alloc: Global, bytes: &[u8], at: usize) -> Result<(Value, usize), Fault>
    requires { at ≤ length bytes.now }
    ensures exact { Gives plain bytes.now result (map_at value_at (drop at bytes.now)) }
    ensures onward { IfOk result (λ r. at < r.1) }
{
    if byte_stands(bytes, at, b')') {
        return Ok((Value::Map(Entries::new(alloc)), at + 1));
    }
    let (first, start) = entry_at(alloc, bytes, at)?;
    let mut last = first.0;
    let mut entries = Vec::new(alloc);
    push_entry(&mut entries, first)?;
    let mut place = start;
    'entries: while leads_entry(bytes, place, &last) {
        let (entry, after) = next_entry_at(alloc, bytes, place + 1, &last)?;
        last = entry.0;
        push_entry(&mut entries, entry)?;
        place = after;
    }
    let (_, end) = byte_at(bytes, place, b')')?;
    Ok((Value::Map(Entries::from_ascending(entries)), end))
}

/// The entry at the place, and the place behind it.
#[cycle(read)]
fn entry_at(alloc: Global, bytes: &[u8], at: usize) -> Result<((Name, Value), usize), Fault>
    requires { at ≤ length bytes.now }
    ensures exact { Gives named bytes.now result (entry_at value_at (drop at bytes.now)) }
    ensures onward { IfOk result (λ r. at < r.1) }
{
    let (name, behind) = name_at(bytes, at)?;
    let (value, end) = given_at(alloc, bytes, behind)?;
    Ok(((name, value), end))
}

/// The entry at the place, whose name has to be above this one, and the place behind it.
#[cycle(read)]
fn next_entry_at(
    alloc: Global,
    bytes: &[u8],
    at: usize,
    last: &Name,
) -> Result<((Name, Value), usize), Fault>
    requires { at ≤ length bytes.now }
    ensures exact { Gives named bytes.now result (next_entry_at value_at last.now
        (drop at bytes.now)) }
    ensures onward { IfOk result (λ r. at < r.1) }
{
    let (name, behind) = higher_at(bytes, at, last)?;
    let (value, end) = given_at(alloc, bytes, behind)?;
    Ok(((name, value), end))
}

/// The value behind the `=` at the place, and the place behind it.
#[cycle(read)]
fn given_at(alloc: Global, bytes: &[u8], at: usize) -> Result<(Value, usize), Fault>
    requires { at ≤ length bytes.now }
    ensures exact { Gives plain bytes.now result (given_at value_at (drop at bytes.now)) }
    ensures onward { IfOk result (λ r. at < r.1) }
{
    let (_, start) = byte_at(bytes, at, b'=')?;
    value_at(alloc, bytes, start)
}

/// The name at the place, which has to be above this one, and the place behind it.
fn higher_at(bytes: &[u8], at: usize, last: &Name) -> Result<(Name, usize), Fault>
    requires { at ≤ length bytes.now }
    ensures exact { Gives (λ n. n) bytes.now result (higher_at last.now (drop at bytes.now)) }
    ensures onward { IfOk result (λ r. at < r.1) }
{
    let (name, end) = name_at(bytes, at)?;
    if !last.cmp(&name).is_lt() {
        return Err(Fault::Low(at));
    }
    Ok((name, end))
}

/// Whether some name is above this one. One byte tells it of nearly all.
#[tactic(auto, unfolding(crate::specs::ReadValue::greatest))]
fn is_below_greatest(name: &Name) -> bool
    ensures { result ≡ is_lt (name_cmp name.now greatest) }
{
    let bytes = name.as_bytes();
    bytes[0] < b'z' || bytes.cmp(&GREATEST.as_slice()).is_lt()
}

/// Whether a comma stands at the place, behind which an entry may stand.
fn leads_entry(bytes: &[u8], place: usize, last: &Name) -> bool
    requires { place ≤ length bytes.now }
    ensures { result ≡ (begins_with 44 (drop place bytes.now)
        && is_lt (name_cmp last.now greatest)) }
{
    byte_stands(bytes, place, b',') && is_below_greatest(last)
}

/// Appends the value to the list.
fn push(list: &mut Value, value: Value) -> Result<(), Fault>
    ensures pushed { OnOk result (push_at [] (plain value) (plain list.old)
        ≡ Some (plain list.new)) }
    ensures cause { IfErr result (λ e. e ≡ fault.NoMemory) }
{
    match list.push_at(&[], value) {
        Ok(()) => Ok(()),
        Err(_) => Err(Fault::NoMemory),
    }
}

/// Appends the entry.
#[inline(never)]
fn push_entry(entries: &mut Vec<(Name, Value)>, entry: (Name, Value)) -> Result<(), NoMemory>
    ensures { OnOk result (entries.new.items ≡ entries.old.items ++ entry ∷ []) }
{
    entries.push(entry)?;
    Ok(())
}
