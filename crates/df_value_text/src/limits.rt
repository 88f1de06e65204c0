//! Values within the limits of freezing, and over them.
ghost use Rattle.std.specs.Prelude.{◌≡◌, ◌≤◌, ◌<◌, length, drop, true, IfOk, IfSome, ◌⊎◌};
ghost use Rattle.df_frozen.specs.Limits.{IsWithinLimits};
ghost use Rattle.df_frozen.specs.Value.{plain};
ghost use Rattle.df_value_text.specs.code.Answer.{IsFound, TellsValue};
ghost use Rattle.df_value_text.specs.Counting.{FirstOver, NeverOver};
ghost use Rattle.df_value_text.specs.Fits.{IsValue};
ghost use Rattle.df_value_text.specs.Value.{value_text};
ghost use Rattle.df_value_text.specs.ValueFault.{up_to};

use crate::counting::{is_small, over_at};
use crate::value_reader::value_at;
use crate::{Fault, TextRefused};
use df_frozen::{Frozen, LONGEST_NAME, MOST_BYTES, Value};
use df_memory::NoMemory;
use std::alloc::Global;

/// How many bytes are read at first.
const NEAR: usize = 512;

/// A value within the limits of freezing, frozen: only memory can be wanting.
fn frozen(alloc: Global, value: Value) -> Result<Frozen, NoMemory>
    requires { IsWithinLimits (plain value) }
    ensures { IfOk result (λ frozen. frozen ≡ plain value) }
{
    match Frozen::new(alloc, value) {
        Ok(frozen) => Ok(frozen),
        Err(_) => Err(NoMemory),
    }
}

/// Whether the value is a number, or words or bytes so few that they may be frozen.
fn is_small_leaf(value: &Value) -> bool
    ensures { result ≡ true → IsWithinLimits (plain value.now) }
{
    match value {
        Value::Int(_) => true,
        Value::Words(words) => words.as_str().len() as u64 <= MOST_BYTES,
        Value::Bytes(bytes) => bytes.as_slice().len() as u64 <= MOST_BYTES,
        Value::Items(_) | Value::Map(_) => false,
    }
}

/// Whether the value, or what is spelled so, passes no count.
fn is_light(value: &Value, text: &[u8]) -> bool
    ensures { result ≡ true → IsWithinLimits (plain value.now) ⊎ NeverOver text.now }
{
    is_small_leaf(value) || is_small(text)
}

/// The longest value at the place, and the place behind it, where it ends within the next bytes and
/// is seen to be within the limits.
fn light_at(alloc: Global, bytes: &[u8], at: usize) -> Option<(Value, usize)>
    requires { at ≤ length bytes.now }
    ensures { IfSome result (λ r. IsFound value_text IsValue bytes.now at (plain r.0, r.1)) }
{
    let cut = bytes.len().min(at + NEAR);
    let Ok((value, end)) = value_at(alloc, &bytes[..cut], at) else {
        return None;
    };
    if end == cut && cut < bytes.len() {
        return None;
    }
    if !is_light(&value, &bytes[at..end]) {
        return None;
    }
    Some((value, end))
}

/// The same value, frozen.
fn near_at(alloc: Global, bytes: &[u8], at: usize) -> Option<(Frozen, usize)>
    requires { at ≤ length bytes.now }
    ensures { IfSome result (IsFound value_text IsValue bytes.now at) }
{
    let (value, end) = light_at(alloc, bytes, at)?;
    match frozen(alloc, value) {
        Ok(frozen) => Some((frozen, end)),
        Err(NoMemory) => None,
    }
}

/// The longest value at the place, frozen, and the place behind it. From the place on no count of
/// freezing is passed.
fn within_at(alloc: Global, bytes: &[u8], at: usize) -> Result<(Frozen, usize), TextRefused>
    requires start { at ≤ length bytes.now }
    requires within { NeverOver (drop at bytes.now) }
    ensures { TellsValue bytes.now at result }
{
    match value_at(alloc, bytes, at) {
        Err(fault) => Err(TextRefused::from(fault)),
        Ok((value, end)) => match frozen(alloc, value) {
            Ok(frozen) => Ok((frozen, end)),
            Err(NoMemory) => Err(TextRefused::NoMemory),
        },
    }
}

/// What is told of a fault where a count is passed at the place.
fn up_to(fault: Fault, over: usize) -> TextRefused
    ensures { result ≡ up_to over fault }
{
    match fault {
        Fault::NoMemory => TextRefused::NoMemory,
        Fault::Bad(place) | Fault::Low(place) => {
            if place <= over {
                TextRefused::Syntax { offset: place }
            } else {
                TextRefused::TooLarge { offset: over }
            }
        }
    }
}

/// Why no value is read at the first place: from there on the byte at the second is the first by
/// which a count of freezing is passed. It reads no further than to the end of a name that begins
/// there, so that little more than the limits is ever built.
fn over_fault(alloc: Global, bytes: &[u8], at: usize, over: usize) -> TextRefused
    requires start { at ≤ length bytes.now }
    requires below { over < length bytes.now }
    requires first { FirstOver (drop at bytes.now) (drop over bytes.now) }
    ensures { TellsValue bytes.now at (Err result) }
{
    let end = bytes.len().min(over + LONGEST_NAME);
    match value_at(alloc, &bytes[..end], at) {
        Ok(_) => TextRefused::TooLarge { offset: over },
        Err(fault) => up_to(fault, over),
    }
}

/// The longest value at the place, frozen, and the place behind it.
pub(crate) fn frozen_at(
    alloc: Global,
    bytes: &[u8],
    at: usize,
) -> Result<(Frozen, usize), TextRefused>
    requires { at ≤ length bytes.now }
    ensures { TellsValue bytes.now at result }
{
    if let Some(found) = near_at(alloc, bytes, at) {
        return Ok(found);
    }
    match over_at(bytes, at) {
        None => within_at(alloc, bytes, at),
        Some(over) => Err(over_fault(alloc, bytes, at, over)),
    }
}
