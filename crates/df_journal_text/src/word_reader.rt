//! Reading words: each stands behind a space.
ghost use Rattle.std.specs.Prelude.{◌≡◌, ◌≤◌, ◌<◌, ◌↔◌, ◌++◌, IfOk, IsTrue, MatchOption, length, drop, true};
ghost use Rattle.df_format.specs.Reading.{text_at};
ghost use Rattle.df_label.specs.Ascending.{IsAscending};
ghost use Rattle.df_label.specs.Privilege.{privilege_cmp};
ghost use Rattle.df_value_text.specs.code.Answer.{Gives};
ghost use Rattle.df_value_text.specs.ReadLabel.{label_at, privilege_at};
ghost use Rattle.df_value_text.specs.ReadName.{name_at};
ghost use Rattle.df_value_text.specs.ReadTag.{short_at, tag_at};
ghost use Rattle.df_filter_text.specs.ReadFilter.{filter_at};
ghost use Rattle.df_journal_text.specs.ReadWords.{begins_pair, each_privilege_at, named_at, privileges_at, word_at};
ghost use Rattle.df_journal_text.specs.code.Judging.{BeginsWith, IsStopped};

use df_filter::Filter;
use df_filter_text::filter_at;
use df_frozen::Name;
use df_label::{Label, Privilege, Privileges, Tag};
use df_value_text::{Fault, byte_at, label_at, name_at, privilege_at, short_at, tag_at};
use std::alloc::Global;

/// The place behind this text, where it stands at the place.
pub fn behind(bytes: &[u8], at: usize, text: &[u8]) -> Option<usize>
    requires { at ≤ length bytes.now }
    ensures { MatchOption result (¬ BeginsWith (drop at bytes.now) text.now)
        (λ end. (end ≤ length bytes.now)
        × (drop at bytes.now ≡ text.now ++ drop end bytes.now)) }
{
    if !bytes[at..].starts_with(text) {
        return None;
    }
    Some(at + text.len())
}

/// The place behind these bytes, if they stand at the place.
pub fn keyword_at(bytes: &[u8], at: usize, keyword: &[u8]) -> Option<usize>
    requires { at ≤ length bytes.now }
    ensures { MatchOption result (IsStopped (text_at keyword.now (drop at bytes.now)))
        (λ end. (end ≤ length bytes.now)
        × (text_at keyword.now (drop at bytes.now) ≡ Ok (keyword.now, drop end bytes.now))) }
{
    behind(bytes, at, keyword)
}

/// The number of 32 bits that is the next word, and the place behind it.
#[inline(always)]
pub fn number_word(bytes: &[u8], at: usize) -> Result<(u32, usize), Fault>
    requires { at ≤ length bytes.now }
    ensures { Gives (λ n. n) bytes.now result (word_at short_at (drop at bytes.now)) }
{
    let (_, start) = byte_at(bytes, at, b' ')?;
    short_at(bytes, start)
}

/// The tag that is the next word, and the place behind it.
pub fn tag_word(alloc: Global, bytes: &[u8], at: usize) -> Result<(Tag, usize), Fault>
    requires { at ≤ length bytes.now }
    ensures { Gives (λ t. t) bytes.now result (word_at tag_at (drop at bytes.now)) }
{
    let (_, start) = byte_at(bytes, at, b' ')?;
    tag_at(alloc, bytes, start)
}

/// The label that is the next word, and the place behind it.
pub fn label_word(alloc: Global, bytes: &[u8], at: usize) -> Result<(Label, usize), Fault>
    requires { at ≤ length bytes.now }
    ensures { Gives (λ l. l) bytes.now result (word_at label_at (drop at bytes.now)) }
{
    let (_, start) = byte_at(bytes, at, b' ')?;
    label_at(alloc, bytes, start)
}

/// The name that is the next word, and the place behind it.
#[inline(always)]
pub fn name_word(bytes: &[u8], at: usize) -> Result<(Name, usize), Fault>
    requires { at ≤ length bytes.now }
    ensures { Gives (λ n. n) bytes.now result (word_at name_at (drop at bytes.now)) }
{
    let (_, start) = byte_at(bytes, at, b' ')?;
    name_at(bytes, start)
}

/// The label and the name that are the next two words, and the place behind them.
pub fn named_at(alloc: Global, bytes: &[u8], at: usize) -> Result<((Label, Name), usize), Fault>
    requires { at ≤ length bytes.now }
    ensures { Gives (λ n. (n.0, n.1)) bytes.now result (named_at (drop at bytes.now)) }
{
    let (label, behind) = label_word(alloc, bytes, at)?;
    let (name, end) = name_word(bytes, behind)?;
    Ok(((label, name), end))
}

/// The privilege that is the next word, and the place behind it.
pub fn privilege_word(alloc: Global, bytes: &[u8], at: usize) -> Result<(Privilege, usize), Fault>
    requires { at ≤ length bytes.now }
    ensures exact { Gives (λ p. p) bytes.now result (word_at privilege_at (drop at bytes.now)) }
    ensures onward { IfOk result (λ r. at < r.1) }
{
    let (_, start) = byte_at(bytes, at, b' ')?;
    let (privilege, end) = privilege_at(alloc, bytes, start)?;
    Ok((privilege, end))
}

/// The filter that is the next words, and the place behind it. Words in a filter may have spaces.
pub fn filter_word(alloc: Global, bytes: &[u8], at: usize) -> Result<(Filter, usize), Fault>
    requires { at ≤ length bytes.now }
    ensures { Gives (λ f. f) bytes.now result (word_at filter_at (drop at bytes.now)) }
{
    let (_, start) = byte_at(bytes, at, b' ')?;
    filter_at(alloc, bytes, start)
}

/// Whether a space and a `#` stand at the place.
fn privilege_stands(bytes: &[u8], place: usize) -> bool
    requires { place ≤ length bytes.now }
    ensures { result ≡ begins_pair 32 35 (drop place bytes.now) }
{
    match &bytes[place..] {
        [b' ', b'#', ..] => true,
        _ => false,
    }
}

/// The privileges that are the next words, whatever their order, and the place behind them.
fn each_privilege_at(
    alloc: Global,
    bytes: &[u8],
    at: usize,
) -> Result<(Vec<Privilege>, usize), Fault>
    requires { at ≤ length bytes.now }
    ensures { Gives (λ v. v.items) bytes.now result (each_privilege_at (drop at bytes.now)) }
{
    let mut privileges = Vec::new(alloc);
    let mut place = at;
    'words: while privilege_stands(bytes, place) {
        let (privilege, after) = privilege_word(alloc, bytes, place)?;
        privileges.push(privilege)?;
        place = after;
    }
    Ok((privileges, place))
}

/// Whether each privilege is above all before it.
fn are_ascending(privileges: &[Privilege]) -> bool
    ensures { IsTrue result ↔ IsAscending privilege_cmp privileges.now }
{
    for i in 1..privileges.len() {
        if !privileges[i - 1].cmp(&privileges[i]).is_lt() {
            return false;
        }
    }
    true
}

/// The privileges that are the next words, in ascending order, and the place behind them.
pub fn privileges_at(alloc: Global, bytes: &[u8], at: usize) -> Result<(Privileges, usize), Fault>
    requires { at ≤ length bytes.now }
    ensures { Gives (λ ps. ps) bytes.now result (privileges_at (drop at bytes.now)) }
{
    let (privileges, end) = each_privilege_at(alloc, bytes, at)?;
    if !are_ascending(privileges.as_slice()) {
        return Err(Fault::Low(at));
    }
    Ok((Privileges::from_ascending(privileges)?, end))
}
