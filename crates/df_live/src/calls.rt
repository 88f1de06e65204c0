//! The calls of a script, a line at a time.

ghost use Rattle.std.specs.Prelude.{◌≡◌, ◌≤◌, IfErr, IfOk};
ghost use Rattle.df_lines.specs.Lines.{IsLine};
ghost use Rattle.df_lines.specs.declared.refused.BadKind.TheVariants as kind;
ghost use Rattle.df_live.specs.code.Stops.{IsBadCall, ReadsCall, RefusesCall, StopsLine, TakesCall, unread};
ghost use Rattle.df_live.specs.declared.lines.Taken.TheVariants as taken;
ghost use Rattle.df_live.specs.declared.status.LiveStatus.TheVariants as status;

use crate::head::take_line;
use crate::lines::{Lines, Taken};
use crate::status::LiveStatus;
use df_journal_text::LineFault;
use df_lines::BadKind;
use df_script_text::{ScriptLine, read_line};
use std::alloc::Global;

/// How a run ends where the line of this number isn't read.
fn unread(line: u64, why: LineFault) -> LiveStatus
    ensures { result ≡ unread line why }
{
    let kind = match why {
        LineFault::NoMemory => return LiveStatus::NoMemory,
        LineFault::TooLarge => BadKind::TooLarge,
        LineFault::Syntax => BadKind::Syntax,
    };
    LiveStatus::BadInput { line, kind }
}

/// The call in a line that had its line feed.
fn line_call(alloc: Global, number: u64, line: &[u8]) -> Result<Option<ScriptLine>, LiveStatus>
    ensures read { IfOk result (ReadsCall taken.Line line.now) }
    ensures refused { IfErr result (RefusesCall number taken.Line line.now) }
{
    match read_line(alloc, line) {
        Ok(call) => Ok(Some(call)),
        Err(fault) => Err(unread(number, fault)),
    }
}

/// How a run ends where a call stands in the line of this number, which has no line feed.
fn unended(line: u64, call: ScriptLine) -> LiveStatus
    ensures { result ≡ status.BadInput line kind.Syntax }
{
    drop(call);
    unread(line, LineFault::Syntax)
}

/// The call in what stands behind the last line feed: none, and nothing may stand there.
fn end_call(alloc: Global, number: u64, line: &[u8]) -> Result<Option<ScriptLine>, LiveStatus>
    ensures read { IfOk result (ReadsCall taken.End line.now) }
    ensures refused { IfErr result (RefusesCall number taken.End line.now) }
{
    if line.is_empty() {
        return Ok(None);
    }
    match read_line(alloc, line) {
        Ok(call) => Err(unended(number, call)),
        Err(why) => Err(unread(number, why)),
    }
}

/// The call in what was taken; none where nothing was.
fn call_in(
    alloc: Global,
    number: u64,
    taken: Taken,
    line: &[u8],
) -> Result<Option<ScriptLine>, LiveStatus>
    ensures read { IfOk result (ReadsCall taken line.now) }
    ensures refused { IfErr result (RefusesCall number taken line.now) }
{
    match taken {
        Taken::Line => line_call(alloc, number, line),
        Taken::End => end_call(alloc, number, line),
    }
}

/// Takes the line of a call, which has this number; none where nothing comes any more.
pub fn take_call<I: Lines>(
    alloc: Global,
    input: &mut I,
    line: &mut Vec<u8>,
    number: u64,
) -> Result<Option<ScriptLine>, LiveStatus>
    ensures read { IfOk result (TakesCall (I.to_come input.old) (I.to_come input.new)
        line.new.items) }
    ensures stops { IfErr result (StopsLine IsBadCall number (I.to_come input.old)
        (I.to_come input.new) (I.faults input.old) (I.faults input.new)) }
    ensures one { IsLine line.new.items }
    ensures never_falls { I.faults input.old ≤ I.faults input.new }
{
    let taken = take_line(input, line)?;
    call_in(alloc, number, taken, line)
}
