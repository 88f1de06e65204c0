//! The start of a script, which is read before anything is answered.

ghost use Rattle.std.specs.Prelude.{◌≡◌, ◌+◌, ◌<◌, ◌≤◌, ◌^◌, IfErr, IfOk, OnOk, codes};
ghost use Rattle.std.specs.Io.KnownBytes.{Consumes};
ghost use Rattle.df_lines.specs.Lines.{IsLine, ended};
ghost use Rattle.df_lines.specs.declared.refused.BadKind.TheVariants as kind;
ghost use Rattle.df_script_text.specs.code.Stops.{IsHeadLine};
ghost use Rattle.df_live.specs.Lines.{Takes};
ghost use Rattle.df_live.specs.code.Stops.{IsBadHead, IsTakenAs, ReadsRoot, RefusesHead, StopsHead, StopsLine, StopsTaking, TakesRoot, TakesStart, not_taken};
ghost use Rattle.df_live.specs.declared.status.LiveStatus.TheVariants as status;

use crate::lines::{Lines, NotTaken, Taken};
use crate::status::LiveStatus;
use df_journal_text::LineFault;
use df_lines::BadKind;
use df_script_text::read_root;
use df_start::{RootStart, Start};
use std::alloc::Global;

/// How a run ends where no line was taken.
fn not_taken(why: NotTaken) -> LiveStatus
    ensures { result ≡ not_taken why }
{
    match why {
        NotTaken::Fault => LiveStatus::ReadFault,
        NotTaken::TooLong => LiveStatus::TooLong,
        NotTaken::NoMemory => LiveStatus::NoMemory,
    }
}

/// Takes the next line of a script.
pub fn take_line<I: Lines>(input: &mut I, line: &mut Vec<u8>) -> Result<Taken, LiveStatus>
    ensures takes { Takes (I.to_come input.old) (I.to_come input.new) line.new.items result }
    ensures stops { IfErr result (StopsTaking (I.faults input.old) (I.faults input.new)
        line.new.items) }
    ensures one { IsLine line.new.items }
    ensures never_falls { I.faults input.old ≤ I.faults input.new }
{
    match input.next_line(line) {
        Ok(taken) => Ok(taken),
        Err(why) => Err(not_taken(why)),
    }
}

/// How a run ends where the line of this number isn't one of a start.
fn bad_line(line: u64) -> LiveStatus
    ensures { result ≡ status.BadInput line kind.Syntax }
{
    let kind = BadKind::Syntax;
    LiveStatus::BadInput { line, kind }
}

/// Whether the first line was taken.
fn first_in(taken: Taken, line: &[u8]) -> Result<(), LiveStatus>
    ensures first { OnOk result (IsTakenAs taken line.now (codes "defcon-script 1")) }
    ensures refused { IfErr result (RefusesHead (λ l. l ≡ codes "defcon-script 1") 1 taken
        line.now) }
{
    if taken == Taken::Line && line == b"defcon-script 1".as_slice() {
        return Ok(());
    }
    Err(bad_line(1))
}

/// The root of this number in a line; none where the line is `run`.
fn root_in(
    alloc: Global,
    number: usize,
    taken: Taken,
    line: &[u8],
) -> Result<Option<RootStart>, LiveStatus>
    requires { number < 2 ^ 32 }
    ensures read { IfOk result (ReadsRoot number taken line.now) }
    ensures refused { IfErr result (RefusesHead (IsHeadLine number) (number + 2) taken line.now) }
{
    let place = number as u64 + 2;
    if taken == Taken::End {
        return Err(bad_line(place));
    }
    if line == b"run".as_slice() {
        return Ok(None);
    }
    if number >= u32::MAX as usize {
        return Err(bad_line(place));
    }
    match read_root(alloc, number as u32, line) {
        Ok(root) => Ok(Some(root)),
        Err(LineFault::NoMemory) => Err(LiveStatus::NoMemory),
        Err(_) => Err(bad_line(place)),
    }
}

/// Takes the first line.
fn take_first<I: Lines>(input: &mut I, line: &mut Vec<u8>) -> Result<(), LiveStatus>
    ensures first { OnOk result (Consumes (I.to_come input.old) (I.to_come input.new)
        (ended (codes "defcon-script 1"))) }
    ensures stops { IfErr result (StopsLine (IsBadHead (λ l. l ≡ codes "defcon-script 1")) 1
        (I.to_come input.old) (I.to_come input.new) (I.faults input.old) (I.faults input.new)) }
    ensures never_falls { I.faults input.old ≤ I.faults input.new }
{
    let taken = take_line(input, line)?;
    first_in(taken, line)
}

/// Takes the line of the root of this number, or the line `run`.
fn take_root<I: Lines>(
    alloc: Global,
    input: &mut I,
    line: &mut Vec<u8>,
    number: usize,
) -> Result<Option<RootStart>, LiveStatus>
    requires { number < 2 ^ 32 }
    ensures read { IfOk result (TakesRoot number (I.to_come input.old) (I.to_come input.new)) }
    ensures stops { IfErr result (StopsLine (IsBadHead (IsHeadLine number)) (number + 2)
        (I.to_come input.old) (I.to_come input.new) (I.faults input.old) (I.faults input.new)) }
    ensures never_falls { I.faults input.old ≤ I.faults input.new }
{
    let taken = take_line(input, line)?;
    root_in(alloc, number, taken, line)
}

/// Takes the lines of a start, and the line `run`.
pub fn take_start<I: Lines>(
    alloc: Global,
    input: &mut I,
    line: &mut Vec<u8>,
) -> Result<Start, LiveStatus>
    ensures read { IfOk result (TakesStart (I.to_come input.old) (I.to_come input.new)) }
    ensures stops { IfErr result (StopsHead (I.to_come input.old) (I.to_come input.new)
        (I.faults input.old) (I.faults input.new)) }
    ensures never_falls { I.faults input.old ≤ I.faults input.new }
{
    take_first(input, line)?;
    let mut roots = Vec::new(alloc);
    'roots: while let Some(root) = take_root(alloc, input, line, roots.len())? {
        if roots.push(root).is_err() {
            return Err(LiveStatus::NoMemory);
        }
    }
    Ok(Start::new(roots))
}
