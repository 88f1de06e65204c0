//! Reading replies: the words behind the arrow.
ghost use Rattle.std.specs.Prelude.{◌≤◌, length, drop};
ghost use Rattle.df_value_text.specs.code.Answer.{Gives};
ghost use Rattle.df_journal_text.specs.ReadReply.{last_replies, long_at, refusing_replies, reply_at};
ghost use Rattle.df_journal_text.specs.ReadWords.{kinds_at, word_at};

use crate::word_reader::{keyword_at, label_word, number_word, privilege_word, tag_word};
use df_unit::{PartsRead, Reply};
use df_value_text::{Fault, byte_at, number_at};
use std::alloc::Global;

/// The number of 64 bits that is the next word, and the place behind it.
fn long_word(bytes: &[u8], at: usize) -> Result<(u64, usize), Fault>
    requires { at ≤ length bytes.now }
    ensures { Gives (λ n. n) bytes.now result (word_at long_at (drop at bytes.now)) }
{
    let (_, start) = byte_at(bytes, at, b' ')?;
    number_at(bytes, start, u64::MAX)
}

/// The reply of one of the last kinds, and the place behind it.
fn last_reply_at(alloc: Global, bytes: &[u8], at: usize) -> Result<(Reply, usize), Fault>
    requires { at ≤ length bytes.now }
    ensures { Gives (λ r. r) bytes.now result (kinds_at last_replies (drop at bytes.now)) }
{
    if let Some(end) = keyword_at(bytes, at, b" too many handles") {
        return Ok((Reply::TooManyHandles, end));
    }
    if let Some(start) = keyword_at(bytes, at, b" too many parts") {
        let (wanted, end) = long_word(bytes, start)?;
        return Ok((Reply::TooManyParts { wanted }, end));
    }
    if let Some(end) = keyword_at(bytes, at, b" too many subs") {
        return Ok((Reply::TooManySubs, end));
    }
    if let Some(end) = keyword_at(bytes, at, b" too many units") {
        return Ok((Reply::TooManyUnits, end));
    }
    if let Some(end) = keyword_at(bytes, at, b" too deep") {
        return Ok((Reply::TooDeep, end));
    }
    if let Some(end) = keyword_at(bytes, at, b" exhausted") {
        return Ok((Reply::Exhausted, end));
    }
    if let Some(start) = keyword_at(bytes, at, b" lacks") {
        let (privilege, end) = privilege_word(alloc, bytes, start)?;
        return Ok((Reply::Lacks(privilege), end));
    }
    if let Some(start) = keyword_at(bytes, at, b" cannot write") {
        let (out, behind) = label_word(alloc, bytes, start)?;
        let (part, end) = label_word(alloc, bytes, behind)?;
        return Ok((Reply::CannotWrite { out, part }, end));
    }
    Err(Fault::Bad(at))
}

/// The reply that refuses without more, or one of the last kinds, and the place behind it.
fn refusing_reply_at(alloc: Global, bytes: &[u8], at: usize) -> Result<(Reply, usize), Fault>
    requires { at ≤ length bytes.now }
    ensures { Gives (λ r. r) bytes.now result (kinds_at refusing_replies (drop at bytes.now)) }
{
    if let Some(end) = keyword_at(bytes, at, b" no unit") {
        return Ok((Reply::NoSuchUnit, end));
    }
    if let Some(end) = keyword_at(bytes, at, b" no handle") {
        return Ok((Reply::NoSuchHandle, end));
    }
    if let Some(end) = keyword_at(bytes, at, b" no part") {
        return Ok((Reply::NoSuchPart, end));
    }
    if let Some(end) = keyword_at(bytes, at, b" not draft") {
        return Ok((Reply::NotDraft, end));
    }
    if let Some(end) = keyword_at(bytes, at, b" not received") {
        return Ok((Reply::NotReceived, end));
    }
    if let Some(end) = keyword_at(bytes, at, b" empty event") {
        return Ok((Reply::EmptyEvent, end));
    }
    if let Some(end) = keyword_at(bytes, at, b" not in managed") {
        return Ok((Reply::NotInManaged, end));
    }
    last_reply_at(alloc, bytes, at)
}

/// The reply at the place, and the place behind it. A space stands before each of its words. What a
/// read shows stands in lines of its own.
pub fn reply_at(alloc: Global, bytes: &[u8], at: usize) -> Result<(Reply, usize), Fault>
    requires { at ≤ length bytes.now }
    ensures { Gives (λ r. r) bytes.now result (reply_at (drop at bytes.now)) }
{
    if let Some(end) = keyword_at(bytes, at, b" ok") {
        return Ok((Reply::Ok, end));
    }
    if let Some(start) = keyword_at(bytes, at, b" event") {
        let (h, behind) = number_word(bytes, start)?;
        let (sub, end) = number_word(bytes, behind)?;
        return Ok((Reply::Event { h, sub }, end));
    }
    if let Some(end) = keyword_at(bytes, at, b" parts") {
        return Ok((Reply::Parts(PartsRead::new(Vec::new(alloc))), end));
    }
    if let Some(end) = keyword_at(bytes, at, b" nothing") {
        return Ok((Reply::Nothing, end));
    }
    if let Some(start) = keyword_at(bytes, at, b" handle") {
        let (h, end) = number_word(bytes, start)?;
        return Ok((Reply::Handle(h), end));
    }
    if let Some(start) = keyword_at(bytes, at, b" tag") {
        let (tag, end) = tag_word(alloc, bytes, start)?;
        return Ok((Reply::Tag(tag), end));
    }
    if let Some(start) = keyword_at(bytes, at, b" sub") {
        let (number, end) = number_word(bytes, start)?;
        return Ok((Reply::Sub(number), end));
    }
    if let Some(start) = keyword_at(bytes, at, b" unit") {
        let (number, end) = number_word(bytes, start)?;
        return Ok((Reply::Unit(number), end));
    }
    refusing_reply_at(alloc, bytes, at)
}
