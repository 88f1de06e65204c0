//! One call is made and answered.

ghost use Rattle.std.specs.Prelude.{◌≡◌, ◌≤◌, IfErr, OnOk};
ghost use Rattle.df_journal_text.specs.Front.{call_front};
ghost use Rattle.df_machine.specs.Journal.{State};
ghost use Rattle.df_machine.specs.Tables.{AgreesWith};
ghost use Rattle.df_live.specs.code.Stops.{AnswersCall, StopsAnswer};

use crate::status::LiveStatus;
use df_io::{Sink, write_all};
use df_journal_text::Notes;
use df_machine::Tables;
use df_script_text::{ReadLine, ScriptLine};
use df_steps::append_step;

/// Makes a call, of which these are the words, and writes its entry.
pub fn answer<W: Sink>(
    tables: &mut Tables,
    notes: &mut Notes,
    line: ScriptLine,
    words: &[u8],
    text: &mut Vec<u8>,
    out: &mut W,
) -> Result<(), LiveStatus>
    requires words { words.now ≡ call_front line.actor line.call }
    requires state { (core : State) × AgreesWith core tables.old }
    ensures answers { OnOk result ((core : State) → AgreesWith core tables.old →
        AnswersCall line core tables.new (W.written out.old) (W.written out.new)) }
    ensures stops { IfErr result (λ why. (core : State) → AgreesWith core tables.old →
        StopsAnswer line core tables.new (W.written out.old) (W.written out.new) (W.faults out.old)
        (W.faults out.new) why) }
    ensures never_falls { W.faults out.old ≤ W.faults out.new }
{
    text.clear();
    if append_step(tables, notes, &ReadLine { words, line }, text).is_err() {
        return Err(LiveStatus::NoMemory);
    }
    if write_all(out, text).is_err() {
        return Err(LiveStatus::WriteFault);
    }
    Ok(())
}
