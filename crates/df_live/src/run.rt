//! A run: its start, and then its calls, one after another.

ghost use Rattle.std.specs.Prelude.{◌≡◌, ◌≤◌, ◌+◌, ◌^◌, [], IfErr, IfOk, OnOk};
ghost use Rattle.df_journal_text.specs.Start.{head_text};
ghost use Rattle.df_machine.specs.Tables.{AgreesWith};
ghost use Rattle.df_live.specs.Live.{AnswersScript, IsDue, Leaves};
ghost use Rattle.df_live.specs.code.Stops.{Begins, Stops};
ghost use Rattle.df_live.specs.declared.status.LiveStatus.TheVariants as status;

use crate::answer::answer;
use crate::calls::take_call;
use crate::head::take_start;
use crate::lines::Lines;
use crate::status::LiveStatus;
use df_io::{Sink, write_all};
use df_journal_text::{Notes, write_head};
use df_machine::Tables;
use df_memory::NoMemory;
use df_start::Start;
use std::alloc::Global;

/// The tables behind the lines that were taken, and the number of the next line.
pub struct Progress {
    pub tables: Tables,
    pub next: u64,
}

/// The tables of a machine with this start, and what is written before its calls.
fn opening(alloc: Global, start: &Start, text: &mut Vec<u8>) -> Result<Tables, NoMemory>
    ensures tables { IfOk result (AgreesWith (start.now, [])) }
    ensures text { OnOk result (text.new.items ≡ head_text start.now) }
{
    text.clear();
    write_head(start, text)?;
    Tables::begin(alloc, start)
}

/// Takes a start, and writes what stands before the entries.
fn begin<I: Lines, W: Sink>(
    alloc: Global,
    input: &mut I,
    out: &mut W,
    line: &mut Vec<u8>,
    text: &mut Vec<u8>,
) -> Result<Progress, LiveStatus>
    ensures begins { IfOk result (Begins (I.to_come input.old) (I.to_come input.new)
        (W.written out.old) (W.written out.new)) }
    ensures stops { IfErr result (Stops (I.to_come input.old) (I.to_come input.new)
        (W.written out.old) (W.written out.new) (I.faults input.old) (I.faults input.new)
        (W.faults out.old) (W.faults out.new)) }
    ensures reads_more { I.faults input.old ≤ I.faults input.new }
    ensures writes_more { W.faults out.old ≤ W.faults out.new }
{
    let start = take_start(alloc, input, line)?;
    let Ok(tables) = opening(alloc, &start, text) else {
        return Err(LiveStatus::NoMemory);
    };
    if write_all(out, text).is_err() {
        return Err(LiveStatus::WriteFault);
    }
    let next = start.as_slice().len() as u64 + 3;
    Ok(Progress { tables, next })
}

/// The number of the line behind this one. The last number that a line can have is behind the end
/// of every script that isn't too long.
fn behind(line: u64) -> Result<u64, LiveStatus>
    ensures next { IfOk result (λ next. next ≡ line + 1) }
    ensures last { IfErr result (λ why. (why ≡ status.TooLong) × (line + 1 ≡ 2 ^ 64)) }
{
    match line.checked_add(1) {
        Some(next) => Ok(next),
        None => Err(LiveStatus::TooLong),
    }
}

/// Takes line after line, and answers each before the next is asked for.
fn live<I: Lines, W: Sink>(alloc: Global, input: &mut I, out: &mut W) -> Result<(), LiveStatus>
    ensures answers { OnOk result (AnswersScript (I.to_come input.old) (I.to_come input.new)
        (W.written out.old) (W.written out.new)) }
    ensures stops { IfErr result (Stops (I.to_come input.old) (I.to_come input.new)
        (W.written out.old) (W.written out.new) (I.faults input.old) (I.faults input.new)
        (W.faults out.old) (W.faults out.new)) }
{
    let mut line = Vec::new(alloc);
    let mut text = Vec::new(alloc);
    let Progress {
        mut tables,
        mut next,
    } = begin(alloc, input, out, &mut line, &mut text)?;
    let mut notes = Notes::new(alloc);
    'calls: while let Some(call) = take_call(alloc, input, &mut line, next)? {
        answer(&mut tables, &mut notes, call, &line, &mut text, out)?;
        next = behind(next)?;
    }
    Ok(())
}

/// Answers the calls of a script as its lines come: the entry of each is written before the next
/// line is asked for. `docs/embedding.md` has what a caller sends and gets.
pub fn run_live<I: Lines, W: Sink>(alloc: Global, input: &mut I, out: &mut W) -> LiveStatus
    ensures leaves { Leaves (I.to_come input.old) (I.to_come input.new) (W.written out.old)
        (W.written out.new) result }
    ensures due { IsDue (I.to_come input.old) (I.faults input.old) (I.faults input.new)
        (W.faults out.old) (W.faults out.new) result }
{
    match live(alloc, input, out) {
        Ok(()) => LiveStatus::Done,
        Err(status) => status,
    }
}
