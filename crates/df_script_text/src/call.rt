//! Calls, with their words as they stand in the bytes that are read.

ghost use Rattle.std.specs.Prelude.{◌≤◌, IfSome, length};
ghost use Rattle.df_script_text.specs.Common.{common_line, root_call};
ghost use Rattle.df_script_text.specs.Called.{IsCallAt};

use crate::common::{CommonLine, RootLine};
use crate::line::{ReadLine, ScriptLine};
use df_journal_text::{KnownLabel, ask_at, read_call_at, unit_at};
use df_value_text::{between, short_at};
use std::alloc::Global;

/// A root's call at the place that names a handle at most, with its words, and the place behind
/// them; none where another stands there.
#[inline(always)]
pub fn common_call_at(bytes: &[u8], at: usize) -> Option<(CommonLine<'_>, usize)>
    requires { at ≤ length bytes.now }
    ensures { IfSome result (λ read. IsCallAt bytes.now at
        (common_line read.0.root read.0.ask) read.0.words.now read.1) }
{
    let Ok((root, behind)) = short_at(bytes, at) else {
        return None;
    };
    let Ok(Some((ask, end))) = ask_at(bytes, behind) else {
        return None;
    };
    let words = between(bytes, at, end);
    Some((CommonLine { words, root, ask }, end))
}

/// A root's call at the place, with its words, and the place behind them; none where another
/// stands there, or memory is wanting.
#[inline(always)]
pub fn root_call_at<'a>(
    alloc: Global,
    known: &mut KnownLabel,
    bytes: &'a [u8],
    at: usize,
) -> Option<(RootLine<'a>, usize)>
    requires { at ≤ length bytes.now }
    ensures { IfSome result (λ read. IsCallAt bytes.now at
        (root_call read.0.root read.0.call) read.0.words.now read.1) }
{
    let Ok((root, behind)) = short_at(bytes, at) else {
        return None;
    };
    let Ok((call, end)) = read_call_at(alloc, known, bytes, behind) else {
        return None;
    };
    let words = between(bytes, at, end);
    Some((RootLine { words, root, call }, end))
}

/// The call at the place, with its words, and the place behind them; none where none can be read
/// there.
pub fn call_at<'a>(
    alloc: Global,
    known: &mut KnownLabel,
    bytes: &'a [u8],
    at: usize,
) -> Option<(ReadLine<'a>, usize)>
    requires { at ≤ length bytes.now }
    ensures { IfSome result (λ read. IsCallAt bytes.now at read.0.line read.0.words.now read.1) }
{
    let Ok((actor, behind)) = unit_at(alloc, bytes, at) else {
        return None;
    };
    let Ok((call, end)) = read_call_at(alloc, known, bytes, behind) else {
        return None;
    };
    let words = between(bytes, at, end);
    let line = ScriptLine { actor, call };
    Some((ReadLine { words, line }, end))
}
