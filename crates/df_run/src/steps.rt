ghost use Rattle.std.specs.Prelude.{◌≡◌, [], IfOk, IfErr, OnOk};
ghost use Rattle.df_journal_text.specs.Front.{call_front};
ghost use Rattle.df_lines.specs.Refused.{NamesBadLine};
ghost use Rattle.df_machine.specs.Journal.{State};
ghost use Rattle.df_machine.specs.Tables.{AgreesWith};
ghost use Rattle.df_script_text.specs.Reader.{HasRead};
ghost use Rattle.df_script_text.specs.Script.{IsScriptText};
ghost use Rattle.df_script_text.specs.TooLarge.{IsTooLargeIn};
ghost use Rattle.df_steps.specs.Steps.{AppendsStep, RecordsScript};
ghost use Rattle.df_run.specs.Steps.{AppendsNext, IsUnderWay};

use df_journal_text::{Notes, write_head};
use df_lines::FileRefused;
use df_machine::Tables;
use df_memory::NoMemory;
use df_script_text::{ReadLine, ScriptReader};
use df_start::Start;
use df_steps::{append_common, append_root, append_step};
use std::alloc::Global;

// A journal has mostly two to six times as many bytes as its script.
const JOURNAL_TIMES: usize = 6;

/// The text of a journal, and the tables behind it.
#[derive(Drop)]
pub struct Recorded {
    pub text: Vec<u8>,
    pub tables: Tables,
}

/// The journal of a script's calls.
pub fn steps(alloc: Global, bytes: &[u8]) -> Result<Recorded, FileRefused>
    ensures records { IfOk result (λ made. RecordsScript bytes.now made.text.items) }
    ensures refuses { IfErr result (NamesBadLine IsScriptText IsTooLargeIn bytes.now) }
{
    let (start, mut reader) = match ScriptReader::begin(alloc, bytes) {
        Ok(begun) => begun,
        Err(refused) => return Err(refused),
    };
    let room = bytes.len().saturating_mul(JOURNAL_TIMES);
    journal_of(alloc, start, &mut reader, room)
}

/// An empty text with room for this many bytes.
fn roomy(alloc: Global, room: usize) -> Result<Vec<u8>, NoMemory>
    ensures { IfOk result (λ text. text.items ≡ []) }
{
    Ok(Vec::with_capacity(alloc, room)?)
}

/// Makes the calls that are left to a reader, each as it is read, and gives their journal, of which
/// no entry is kept. The text is begun with room for this many bytes.
fn journal_of(
    alloc: Global,
    start: Start,
    reader: &mut ScriptReader<'_>,
    room: usize,
) -> Result<Recorded, FileRefused>
    requires { HasRead start [] reader.old }
    ensures records { IfOk result (λ made. RecordsScript reader.old.bytes made.text.items) }
    ensures refuses { IfErr result (NamesBadLine IsScriptText IsTooLargeIn reader.old.bytes) }
{
    let mut text = roomy(alloc, room)?;
    write_head(&start, &mut text)?;
    let mut tables = Tables::begin(alloc, &start)?;
    let mut notes = Notes::new(alloc);
    'lines: while append_next(reader, &mut tables, &mut notes, &mut text)? {}
    Ok(Recorded { text, tables })
}

/// Makes the next call that is left to a reader, and appends its entry: whether there was one.
fn append_next(
    reader: &mut ScriptReader<'_>,
    tables: &mut Tables,
    notes: &mut Notes,
    text: &mut Vec<u8>,
) -> Result<bool, FileRefused>
    requires { IsUnderWay reader.old tables.old text.old.items }
    ensures { AppendsNext reader.old reader.new tables.old tables.new text.old.items
        text.new.items result }
{
    if let Some(line) = reader.next_common() {
        append_common(tables, notes, line, text)?;
        return Ok(true);
    }
    if let Some(line) = reader.next_root() {
        append_root(tables, notes, line, text)?;
        return Ok(true);
    }
    append_any(reader, tables, notes, text)
}

/// Makes the next call that is left to a reader, of whichever unit, and appends its entry: whether
/// there was one. The room for a line of any unit is made here alone.
#[inline(never)]
fn append_any(
    reader: &mut ScriptReader<'_>,
    tables: &mut Tables,
    notes: &mut Notes,
    text: &mut Vec<u8>,
) -> Result<bool, FileRefused>
    requires { IsUnderWay reader.old tables.old text.old.items }
    ensures { AppendsNext reader.old reader.new tables.old tables.new text.old.items
        text.new.items result }
{
    let Some(read) = reader.next_line()? else {
        return Ok(false);
    };
    append(tables, notes, read, text)?;
    Ok(true)
}

/// Makes a call that was read, and appends its entry.
fn append(
    tables: &mut Tables,
    notes: &mut Notes,
    read: ReadLine<'_>,
    text: &mut Vec<u8>,
) -> Result<(), NoMemory>
    requires words { read.words.now ≡ call_front read.line.actor read.line.call }
    requires state { (core : State) × AgreesWith core tables.old }
    ensures { OnOk result ((core : State) → AgreesWith core tables.old →
        AppendsStep read.entry.line core tables.new text.old.items text.new.items) }
{
    let appended = append_step(tables, notes, &read, text);
    drop(read);
    appended
}
