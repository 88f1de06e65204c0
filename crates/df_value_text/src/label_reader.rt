//! Reading labels and privileges.
ghost use Rattle.std.specs.Prelude.{◌≤◌, length, drop};
ghost use Rattle.df_format.specs.Reading.{text_at};
ghost use Rattle.df_value_text.specs.code.Answer.{Gives};
ghost use Rattle.df_value_text.specs.ReadLabel.{auth_at, auth_word, label_at, privilege_at, right_at};

use crate::Fault;
use crate::number_reader::{byte_at, byte_stands};
use crate::tag_reader::{tag_at, tags_at};
use df_label::{Label, Privilege, Right};
use std::alloc::Global;

/// The label at the place, and the place behind it.
pub fn label_at(alloc: Global, bytes: &[u8], at: usize) -> Result<(Label, usize), Fault>
    requires { at ≤ length bytes.now }
    ensures { Gives (λ l. l) bytes.now result (label_at (drop at bytes.now)) }
{
    let (_, start) = byte_at(bytes, at, b'{')?;
    let (s, bar) = tags_at(alloc, bytes, start)?;
    let (_, next) = byte_at(bytes, bar, b'|')?;
    let (i, brace) = tags_at(alloc, bytes, next)?;
    let (_, end) = byte_at(bytes, brace, b'}')?;
    Ok((Label { s, i }, end))
}

/// The place behind these bytes, which have to stand at the place.
pub fn text_at(bytes: &[u8], at: usize, text: &[u8]) -> Result<((), usize), Fault>
    requires { at ≤ length bytes.now }
    ensures { Gives (λ none. text.now) bytes.now result (text_at text.now (drop at bytes.now)) }
{
    let mut place = at;
    for byte in text {
        if !byte_stands(bytes, place, *byte) {
            return Err(Fault::Bad(place));
        }
        place += 1;
    }
    Ok(((), place))
}

/// Whether `auth` stands at the place, and the place behind it.
fn auth_at(bytes: &[u8], at: usize) -> Result<(bool, usize), Fault>
    requires { at ≤ length bytes.now }
    ensures { Gives auth_word bytes.now result (auth_at (drop at bytes.now)) }
{
    if !byte_stands(bytes, at, b'a') {
        return Ok((false, at));
    }
    let (_, end) = text_at(bytes, at, b"auth")?;
    Ok((true, end))
}

/// The right at the place, and the place behind it.
fn right_at(bytes: &[u8], at: usize) -> Result<(Right, usize), Fault>
    requires { at ≤ length bytes.now }
    ensures { Gives (λ r. r) bytes.now result (right_at (drop at bytes.now)) }
{
    if byte_stands(bytes, at, b'+') {
        let (auth, end) = auth_at(bytes, at + 1)?;
        let right = if auth { Right::PlusAuth } else { Right::Plus };
        return Ok((right, end));
    }
    let (_, start) = byte_at(bytes, at, b'-')?;
    let (auth, end) = auth_at(bytes, start)?;
    let right = if auth { Right::MinusAuth } else { Right::Minus };
    Ok((right, end))
}

/// The privilege at the place, and the place behind it.
pub fn privilege_at(alloc: Global, bytes: &[u8], at: usize) -> Result<(Privilege, usize), Fault>
    requires { at ≤ length bytes.now }
    ensures { Gives (λ p. p) bytes.now result (privilege_at (drop at bytes.now)) }
{
    let (tag, sign) = tag_at(alloc, bytes, at)?;
    let (right, end) = right_at(bytes, sign)?;
    Ok((Privilege { tag, right }, end))
}
