//! Reading calls: the words behind the unit's.
ghost use Rattle.std.specs.Prelude.{◌≤◌, length, drop};
ghost use Rattle.df_value_text.specs.code.Answer.{Gives};
ghost use Rattle.df_journal_text.specs.Fits.{IsCall};
ghost use Rattle.df_journal_text.specs.Large.{IsLargeCall};
ghost use Rattle.df_journal_text.specs.ReadCall.{act_at, braced_at, call_at, change_at, half_at, last_kinds, named_kinds, plain_kinds, spot_at};
ghost use Rattle.df_journal_text.specs.ReadWords.{kinds_at, word_at};
ghost use Rattle.df_journal_text.specs.code.Judging.{EndsCall, Tells, call_text};

use crate::ask::ask_at;
use crate::known_label::KnownLabel;
use crate::line_fault::LineFault;
use crate::name_reader::braced_at;
use crate::value_word::read_value_word;
use crate::word_reader::{
    filter_word, keyword_at, name_word, number_word, privilege_word, privileges_at, tag_word,
};
use df_frozen::Name;
use df_label::{Label, Tag, TagSet};
use df_priv::{Act, Half};
use df_unit::Call;
use df_value_text::{Fault, byte_at};
use std::alloc::Global;

/// The handle, the label and the name that are the next words, and the place behind them.
#[inline(always)]
fn spot_at(
    alloc: Global,
    known: &mut KnownLabel,
    bytes: &[u8],
    at: usize,
) -> Result<((u32, (Label, Name)), usize), Fault>
    requires { at ≤ length bytes.now }
    ensures { Gives (λ s. (s.0, (s.1.0, s.1.1))) bytes.now result (spot_at (drop at bytes.now)) }
{
    let (h, behind) = number_word(bytes, at)?;
    let (named, end) = known.named_at(alloc, bytes, behind)?;
    Ok(((h, named), end))
}

/// `S` or `I` as the next word, and the place behind it.
fn half_at(bytes: &[u8], at: usize) -> Result<(Half, usize), Fault>
    requires { at ≤ length bytes.now }
    ensures { Gives (λ h. h) bytes.now result (half_at (drop at bytes.now)) }
{
    if let Some(end) = keyword_at(bytes, at, b" S") {
        return Ok((Half::S, end));
    }
    if let Some(end) = keyword_at(bytes, at, b" I") {
        return Ok((Half::I, end));
    }
    Err(Fault::Bad(at))
}

/// `add` or `del` as the next word, and the place behind it.
fn act_at(bytes: &[u8], at: usize) -> Result<(Act, usize), Fault>
    requires { at ≤ length bytes.now }
    ensures { Gives (λ a. a) bytes.now result (act_at (drop at bytes.now)) }
{
    if let Some(end) = keyword_at(bytes, at, b" add") {
        return Ok((Act::Add, end));
    }
    if let Some(end) = keyword_at(bytes, at, b" del") {
        return Ok((Act::Del, end));
    }
    Err(Fault::Bad(at))
}

/// A half of a label, what is done there, and a tag, and the place behind them.
fn change_at(alloc: Global, bytes: &[u8], at: usize) -> Result<((Half, (Act, Tag)), usize), Fault>
    requires { at ≤ length bytes.now }
    ensures { Gives (λ c. (c.0, (c.1.0, c.1.1))) bytes.now result (change_at (drop at bytes.now)) }
{
    let (half, first) = half_at(bytes, at)?;
    let (act, second) = act_at(bytes, first)?;
    let (tag, end) = tag_word(alloc, bytes, second)?;
    Ok(((half, (act, tag)), end))
}

/// The set of tags that is the next word, and the place behind it.
fn braced_word(alloc: Global, bytes: &[u8], at: usize) -> Result<(TagSet, usize), Fault>
    requires { at ≤ length bytes.now }
    ensures { Gives (λ s. s) bytes.now result (word_at braced_at (drop at bytes.now)) }
{
    let (_, start) = byte_at(bytes, at, b' ')?;
    braced_at(alloc, bytes, start)
}

/// The call of one of the last kinds, and the place behind it.
fn last_call_at(alloc: Global, bytes: &[u8], at: usize) -> Result<(Call, usize), Fault>
    requires { at ≤ length bytes.now }
    ensures { Gives (λ c. c) bytes.now result (kinds_at last_kinds (drop at bytes.now)) }
{
    if let Some(end) = keyword_at(bytes, at, b" tag") {
        return Ok((Call::CreateTag, end));
    }
    if let Some(start) = keyword_at(bytes, at, b" out") {
        let ((half, (act, tag)), end) = change_at(alloc, bytes, start)?;
        return Ok((Call::ChangeOutLabel { half, act, tag }, end));
    }
    if let Some(start) = keyword_at(bytes, at, b" inout") {
        let ((half, (act, tag)), end) = change_at(alloc, bytes, start)?;
        return Ok((Call::ChangeInOut { half, act, tag }, end));
    }
    if let Some(start) = keyword_at(bytes, at, b" sub") {
        let (filter, end) = filter_word(alloc, bytes, start)?;
        return Ok((Call::Subscribe { filter }, end));
    }
    if let Some(start) = keyword_at(bytes, at, b" msub") {
        let (filter, end) = filter_word(alloc, bytes, start)?;
        return Ok((Call::SubscribeManaged { filter }, end));
    }
    if let Some(start) = keyword_at(bytes, at, b" spawn") {
        let (s, behind) = braced_word(alloc, bytes, start)?;
        let (privileges, end) = privileges_at(alloc, bytes, behind)?;
        return Ok((Call::Instantiate { s, privileges }, end));
    }
    Err(Fault::Bad(at))
}

/// The call that names a label or a name without a value, or one of the last kinds, and the place
/// behind it.
fn named_call_at(
    alloc: Global,
    known: &mut KnownLabel,
    bytes: &[u8],
    at: usize,
) -> Result<(Call, usize), Fault>
    requires { at ≤ length bytes.now }
    ensures { Gives (λ c. c) bytes.now result (kinds_at named_kinds (drop at bytes.now)) }
{
    if let Some(start) = keyword_at(bytes, at, b" del") {
        let ((h, (label, name)), end) = spot_at(alloc, known, bytes, start)?;
        return Ok((Call::DelPart { h, label, name }, end));
    }
    if let Some(start) = keyword_at(bytes, at, b" read") {
        let (h, behind) = number_word(bytes, start)?;
        let (name, end) = name_word(bytes, behind)?;
        return Ok((Call::ReadPart { h, name }, end));
    }
    if let Some(start) = keyword_at(bytes, at, b" clone") {
        let (h, behind) = number_word(bytes, start)?;
        let (label, end) = known.label_word(alloc, bytes, behind)?;
        return Ok((Call::CloneEvent { h, label }, end));
    }
    if let Some(start) = keyword_at(bytes, at, b" attach") {
        let ((h, (label, name)), behind) = spot_at(alloc, known, bytes, start)?;
        let (p, end) = privilege_word(alloc, bytes, behind)?;
        return Ok((Call::AttachPrivilege { h, label, name, p }, end));
    }
    last_call_at(alloc, bytes, at)
}

/// The call at the place, of any kind but that with a value, and the place behind it.
fn plain_call_at(
    alloc: Global,
    known: &mut KnownLabel,
    bytes: &[u8],
    at: usize,
) -> Result<(Call, usize), Fault>
    requires { at ≤ length bytes.now }
    ensures { Gives (λ c. c) bytes.now result (kinds_at plain_kinds (drop at bytes.now)) }
{
    match ask_at(bytes, at)? {
        Some((ask, end)) => Ok((ask.call(), end)),
        None => named_call_at(alloc, known, bytes, at),
    }
}

/// The call at the place, and the place behind it. A space stands before each of its words.
pub fn read_call_at(
    alloc: Global,
    known: &mut KnownLabel,
    bytes: &[u8],
    at: usize,
) -> Result<(Call, usize), LineFault>
    requires { at ≤ length bytes.now }
    ensures { Tells call_text IsCall EndsCall IsLargeCall call_at bytes.now at result }
{
    let Some(start) = keyword_at(bytes, at, b" add") else {
        let (call, end) = plain_call_at(alloc, known, bytes, at)?;
        return Ok((call, end));
    };
    let ((h, (label, name)), behind) = spot_at(alloc, known, bytes, start)?;
    let (value, end) = read_value_word(alloc, bytes, behind)?;
    let call = Call::AddPart {
        h,
        label,
        name,
        value,
    };
    Ok((call, end))
}
