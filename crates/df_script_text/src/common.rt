//! The lines of roots' calls, which are read where they stand.

ghost use Rattle.std.specs.Prelude.{◌≤◌, IfSome, length};
ghost use Rattle.df_script_text.specs.code.Common.{IsCommonAt, IsRootCallAt};

use crate::call::{common_call_at, root_call_at};
use df_journal_text::{Ask, KnownLabel};
use df_unit::Call;
use df_value_text::byte_at;
use std::alloc::Global;

/// A root's call that is `get`, `create`, `publish`, `release` or `drop`, and the words of its line
/// as they stand in the bytes that are read, without the line feed.
#[derive(Clone, Copy)]
pub struct CommonLine<'a> {
    pub words: &'a [u8],
    pub root: u32,
    pub ask: Ask,
}

/// A root's call, and the words of its line as they stand in the bytes that are read, without the
/// line feed.
#[derive(Drop)]
pub struct RootLine<'a> {
    pub words: &'a [u8],
    pub root: u32,
    pub call: Call,
}

/// The common line at the place, and the place behind it; none where another stands there.
pub fn common_at(bytes: &[u8], at: usize) -> Option<(CommonLine<'_>, usize)>
    requires { at ≤ length bytes.now }
    ensures { IfSome result (λ read.
        IsCommonAt bytes.now at read.0.root read.0.ask read.0.words.now read.1) }
{
    let (line, end) = common_call_at(bytes, at)?;
    let Ok((_, next)) = byte_at(bytes, end, b'\n') else {
        return None;
    };
    Some((line, next))
}

/// The line of a root's call at the place, and the place behind it; none where another stands
/// there, or memory is wanting.
pub fn call_line_at<'a>(
    alloc: Global,
    known: &mut KnownLabel,
    bytes: &'a [u8],
    at: usize,
) -> Option<(RootLine<'a>, usize)>
    requires { at ≤ length bytes.now }
    ensures { IfSome result (λ read.
        IsRootCallAt bytes.now at read.0.root read.0.call read.0.words.now read.1) }
{
    let (line, end) = root_call_at(alloc, known, bytes, at)?;
    let Ok((_, next)) = byte_at(bytes, end, b'\n') else {
        drop(line);
        return None;
    };
    Some((line, next))
}
