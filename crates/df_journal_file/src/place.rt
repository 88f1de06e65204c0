//! Lines at a place, each with its line feed.
ghost use Rattle.std.specs.Prelude.{◌≡◌, ◌≤◌, ◌∷◌, [], IfErr, IfOk, drop, length};
ghost use Rattle.df_journal_text.specs.ReadWords.{begins_pair};
ghost use Rattle.df_journal_file.specs.code.Places.{AreMarked, IsLineHere, MarkedStop, TellsAt, finished};

use crate::told::Told;
use df_journal_text::LineFault;
use df_lines::{FileFault, line_at};
use df_script_text::fault_of;
use std::alloc::Global;

/// The bytes up to the next line feed and the place behind it, or all bytes that are left.
fn line_here(bytes: &[u8], at: usize) -> (&[u8], Option<usize>)
    requires { at ≤ length bytes.now }
    ensures { IsLineHere bytes.now at (result.0.now, result.1) }
{
    match line_at(bytes, at) {
        Some((line, next)) => (line, Some(next)),
        None => (&bytes[at..], None),
    }
}

/// What was read of a line, with the place behind it, or the fault by the line's place. A line
/// without line feed is bad.
fn finished<X: Drop>(
    at: usize,
    next: Option<usize>,
    read: Result<X, LineFault>,
) -> Result<(X, usize), FileFault>
    ensures { result ≡ finished at next read }
{
    match read {
        Ok(x) => match next {
            Some(next) => Ok((x, next)),
            None => Err(FileFault::Bad(at)),
        },
        Err(fault) => Err(fault_of(at, fault)),
    }
}

/// What the line at the place tells, behind the mark where it may have several.
pub fn told_at<L: Told>(
    alloc: Global,
    bytes: &[u8],
    at: usize,
    mark: &[u8],
) -> Result<(L, usize), FileFault>
    requires { at ≤ length bytes.now }
    ensures { TellsAt (L.text mark.now) L.Fits (L.IsLarge mark.now) bytes.now at result }
{
    let (line, next) = line_here(bytes, at);
    finished(at, next, L::read(alloc, line, mark))
}

/// Whether this mark and a space stand at the place.
pub fn mark_stands(bytes: &[u8], place: usize, mark: u8) -> bool
    requires { place ≤ length bytes.now }
    ensures { result ≡ begins_pair mark 32 (drop place bytes.now) }
{
    match &bytes[place..] {
        [first, b' ', ..] => *first == mark,
        _ => false,
    }
}

/// The lines with the mark from the place on, as many as there are, and the place behind them.
pub fn lines_at<L: Told>(
    alloc: Global,
    bytes: &[u8],
    at: usize,
    mark: u8,
) -> Result<(Vec<L>, usize), FileFault>
    requires { at ≤ length bytes.now }
    ensures read { IfOk result (λ r.
        AreMarked (L.text (mark ∷ [])) L.Fits mark bytes.now at r.0.items r.1) }
    ensures stops { IfErr result (MarkedStop (L.text (mark ∷ [])) L.Fits (L.IsLarge (mark ∷ []))
        mark bytes.now at) }
{
    let mut lines = Vec::new(alloc);
    let mut place = at;
    'lines: while mark_stands(bytes, place, mark) {
        let (line, next) = told_at(alloc, bytes, place, &[mark])?;
        lines.push(line)?;
        place = next;
    }
    Ok((lines, place))
}
