//! Reading words.
ghost use Rattle.std.specs.Prelude.{◌≡◌, ◌≤◌, ◌<◌, ◌+◌, length, drop, IfOk};
ghost use Rattle.std.specs.List.{list_all};
ghost use Rattle.df_format.specs.Reading.{with_front};
ghost use Rattle.df_value_text.specs.code.Answer.{Gives};
ghost use Rattle.df_value_text.specs.ReadEscape.{is_plain};
ghost use Rattle.df_value_text.specs.ReadWords.{chars_at, words_at};
ghost use Rattle.df_value_text.specs.code.Short.{plain_run};

use crate::Fault;
use crate::char_reader::{append_char, char_stands, is_plain};
use crate::number_reader::byte_at;
use df_frozen::Words;
use df_memory::NoMemory;
use std::alloc::Global;

/// How many bytes are looked at together.
const GROUP: usize = 16;

/// Whether each of these bytes stands for itself. It looks at all of them, so that a machine may
/// compare them at once.
fn are_plain(group: &[u8]) -> bool
    ensures { result ≡ list_all is_plain group.now }
{
    let mut plain = true;
    for byte in group {
        plain &= is_plain(*byte);
    }
    plain
}

/// The place behind the whole groups from the place on whose bytes stand for themselves.
fn groups_end(bytes: &[u8], at: usize) -> usize
    requires { at ≤ length bytes.now }
    ensures within { result ≤ length bytes.now }
    ensures value { result + plain_run (drop result bytes.now)
        ≡ at + plain_run (drop at bytes.now) }
{
    let mut end = at;
    while bytes.len() - end >= GROUP && are_plain(&bytes[end..end + GROUP]) {
        end += GROUP;
    }
    end
}

/// The place behind the bytes from the place on that stand for themselves.
pub(crate) fn plain_end(bytes: &[u8], at: usize) -> usize
    requires { at ≤ length bytes.now }
    ensures within { result ≤ length bytes.now }
    ensures value { result ≡ at + plain_run (drop at bytes.now) }
{
    let mut end = groups_end(bytes, at);
    while end < bytes.len() && is_plain(bytes[end]) {
        end += 1;
    }
    end
}

/// Appends the bytes from the place on that stand for themselves, and gives the place behind them.
#[tactic(auto, using(crate::proofs::WordsSteps::run_read))]
fn append_plain(bytes: &[u8], at: usize, text: &mut Vec<u8>) -> Result<usize, NoMemory>
    requires { at ≤ length bytes.now }
    ensures onward { IfOk result (λ end. at ≤ end) }
    ensures within { IfOk result (λ end. end ≤ length bytes.now) }
    ensures rest { IfOk result (λ end. with_front text.new.items (chars_at (drop end bytes.now))
        ≡ with_front text.old.items (chars_at (drop at bytes.now))) }
{
    let end = plain_end(bytes, at);
    text.extend_from_slice(&bytes[at..end])?;
    Ok(end)
}

/// The bytes of as many characters as stand at the place, and the place behind them.
fn chars_at(alloc: Global, bytes: &[u8], at: usize) -> Result<(Vec<u8>, usize), Fault>
    requires { at ≤ length bytes.now }
    ensures exact { Gives (λ v. v.items) bytes.now result (chars_at (drop at bytes.now)) }
    ensures onward { IfOk result (λ r. at ≤ r.1) }
{
    let mut text = Vec::new(alloc);
    let mut place = append_plain(bytes, at, &mut text)?;
    while char_stands(bytes, place) {
        let (_, behind) = append_char(bytes, place, &mut text)?;
        place = append_plain(bytes, behind, &mut text)?;
    }
    Ok((text, place))
}

/// The words at the place, in their quotes, and the place behind them.
pub fn words_at(alloc: Global, bytes: &[u8], at: usize) -> Result<(Words, usize), Fault>
    requires { at ≤ length bytes.now }
    ensures exact { Gives (λ w. w) bytes.now result (words_at (drop at bytes.now)) }
    ensures onward { IfOk result (λ r. at < r.1) }
{
    let (_, start) = byte_at(bytes, at, b'"')?;
    let (text, quote) = chars_at(alloc, bytes, start)?;
    let (_, end) = byte_at(bytes, quote, b'"')?;
    let text = unsafe { String::from_utf8_unchecked(text) };
    Ok((Words::from(text), end))
}
