//! The lines of roots.

ghost use Rattle.std.specs.Prelude.{◌≡◌, ◌≤◌, length, IfErr, IfOk};
ghost use Rattle.df_value_text.specs.code.Answer.{Gives};
ghost use Rattle.df_journal_text.specs.Fits.{IsRoot};
ghost use Rattle.df_journal_text.specs.Start.{root_line};
ghost use Rattle.df_journal_text.specs.code.Judging.{TellsLine};
ghost use Rattle.df_script_text.specs.code.Lines.{root_line_at};
ghost use Rattle.df_script_text.specs.code.Stops.{AreRootsAt, RootsStop, StopsRoot, TellsRoot};

use crate::line::fault_of;
use df_journal_text::{LineFault, label_word, privileges_at, whole};
use df_lines::{FileFault, line_at};
use df_start::{RootStart, Start};
use df_value_text::{Fault, text_at};
use itoa::Buffer;
use std::alloc::Global;

/// The root in the line of this number, and the place behind it.
fn root_line_at(alloc: Global, number: u32, line: &[u8]) -> Result<(RootStart, usize), Fault>
    ensures { Gives (λ root. root) line.now result (root_line_at number line.now) }
{
    let mut digits = Buffer::new();
    let (_, place) = text_at(line, 0, b"unit ")?;
    let (_, behind) = text_at(line, place, digits.format(number).as_bytes())?;
    let (label, words) = label_word(alloc, line, behind)?;
    let (privileges, end) = privileges_at(alloc, line, words)?;
    Ok((RootStart { label, privileges }, end))
}

/// The line of the root that has this number, without its line feed.
pub fn read_root(alloc: Global, number: u32, line: &[u8]) -> Result<RootStart, LineFault>
    ensures { TellsLine (root_line number) IsRoot (λ _. ⊥) line.now result }
{
    whole(line, root_line_at(alloc, number, line))
}

/// The root in the line at the place, of which this is the number, and the place behind the line;
/// none where the line is `run`.
fn root_at(
    alloc: Global,
    bytes: &[u8],
    at: usize,
    number: usize,
) -> Result<Option<(RootStart, usize)>, FileFault>
    requires { at ≤ length bytes.now }
    ensures read { IfOk result (TellsRoot number bytes.now at) }
    ensures stops { IfErr result (StopsRoot number bytes.now at) }
{
    let Some((line, next)) = line_at(bytes, at) else {
        return Err(FileFault::Bad(at));
    };
    if line == b"run".as_slice() {
        return Ok(None);
    }
    if number >= u32::MAX as usize {
        return Err(FileFault::Bad(at));
    }
    match read_root(alloc, number as u32, line) {
        Ok(root) => Ok(Some((root, next))),
        Err(fault) => Err(fault_of(at, fault)),
    }
}

/// The roots at the place, and the place behind the line `run` that stands behind them.
pub fn roots_at(alloc: Global, bytes: &[u8], at: usize) -> Result<(Start, usize), FileFault>
    requires { at ≤ length bytes.now }
    ensures read { IfOk result (λ r. AreRootsAt bytes.now at r.0 r.1) }
    ensures stops { IfErr result (RootsStop bytes.now at) }
{
    let mut roots = Vec::new(alloc);
    let mut place = at;
    'roots: while let Some((root, next)) = root_at(alloc, bytes, place, roots.len())? {
        roots.push(root)?;
        place = next;
    }
    Ok((Start::new(roots), place + 4))
}
