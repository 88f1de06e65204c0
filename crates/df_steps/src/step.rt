ghost use Rattle.std.specs.Prelude.{◌≡◌, ◌∷◌, [], OnOk};
ghost use Rattle.df_journal_text.specs.Ask.{asked};
ghost use Rattle.df_journal_text.specs.Front.{call_front};
ghost use Rattle.df_machine.specs.Journal.{State};
ghost use Rattle.df_machine.specs.Tables.{AgreesWith};
ghost use Rattle.df_script_text.specs.Common.{common_line, root_call};
ghost use Rattle.df_unit.specs.declared.name.UnitName.TheVariants.{Root};
ghost use Rattle.df_steps.specs.Steps.{AppendsStep};

use df_audit as audit;
use df_audit::Heedless;
use df_journal_text::Notes;
use df_machine::Tables;
use df_memory::NoMemory;
use df_script_text::{CommonLine, ReadLine, RootLine};

/// Makes a call, and appends its entry with the actor's contamination before it. The words of the
/// call are those that were read; nothing keeps the entry.
pub fn append_step(
    tables: &mut Tables,
    notes: &mut Notes,
    read: &ReadLine<'_>,
    text: &mut Vec<u8>,
) -> Result<(), NoMemory>
    requires words { read.now.words.now ≡ call_front read.now.line.actor read.now.line.call }
    requires state { (core : State) × AgreesWith core tables.old }
    ensures { OnOk result ((core : State) → AgreesWith core tables.old →
        AppendsStep read.now.line core tables.new text.old.items text.new.items) }
{
    let place = tables.place(&read.line.actor);
    let call = &read.line.call;
    audit::append_call(tables, notes, place, read.words, call, text, &mut Heedless)
}

/// Makes the call of a common line, and appends its entry with the root's contamination before it.
pub fn append_common(
    tables: &mut Tables,
    notes: &mut Notes,
    line: CommonLine<'_>,
    text: &mut Vec<u8>,
) -> Result<(), NoMemory>
    requires words { line.words.now ≡ call_front (Root (line.root ∷ [])) (asked line.ask) }
    requires state { (core : State) × AgreesWith core tables.old }
    ensures { OnOk result ((core : State) → AgreesWith core tables.old →
        AppendsStep (common_line line.entry.root line.entry.ask) core tables.new text.old.items
        text.new.items) }
{
    let place = tables.root(line.root);
    let (words, ask) = (line.words, line.ask);
    audit::append_common(tables, notes, place, words, ask, text, &mut Heedless)
}

/// Makes a root's call, and appends its entry with the root's contamination before it.
pub fn append_root(
    tables: &mut Tables,
    notes: &mut Notes,
    line: RootLine<'_>,
    text: &mut Vec<u8>,
) -> Result<(), NoMemory>
    requires words { line.words.now ≡ call_front (Root (line.root ∷ [])) line.call }
    requires state { (core : State) × AgreesWith core tables.old }
    ensures { OnOk result ((core : State) → AgreesWith core tables.old →
        AppendsStep (root_call line.entry.root line.entry.call) core tables.new text.old.items
        text.new.items) }
{
    let place = tables.root(line.root);
    let (words, call) = (line.words, &line.call);
    let appended = audit::append_call(tables, notes, place, words, call, text, &mut Heedless);
    drop(line);
    appended
}
