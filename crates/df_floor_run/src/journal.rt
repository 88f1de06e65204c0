//! The text of a machine's journal.

ghost use Rattle.std.specs.Prelude.{◌≡◌, ◌++◌, IfOk, OnOk};
ghost use Rattle.std.specs.List.{flat_map};
ghost use Rattle.df_floor_run.specs.FloorRun.{report_text, run_text};
ghost use Rattle.df_journal_text.specs.Entry.{noted_text};
ghost use Rattle.df_journal_text.specs.Start.{journal_text};
ghost use Rattle.df_machine.specs.Journal.{State};
ghost use Rattle.df_machine.specs.Tables.{AgreesWith};
ghost use Rattle.df_replay.specs.Noted.{noted, noted_in};
ghost use Rattle.df_replay.specs.Replay.{replayed};

use df_journal_text::{write_head, write_noting};
use df_machine::{Core, Tables};
use df_memory::NoMemory;
use df_replay::repeat;
use df_report::{summary, write_summary};
use df_unit::Entry;
use std::alloc::Global;

/// Appends an entry with the contamination that its actor has by these tables, which then take it
/// in.
fn append_entry(tables: &mut Tables, kept: &Entry, text: &mut Vec<u8>) -> Result<(), NoMemory>
    requires { (core : State) × AgreesWith core tables.old }
    ensures text { OnOk result ((core : State) → AgreesWith core tables.old →
        text.new.items ≡ text.old.items ++ noted_text (noted_in core kept.now)) }
    ensures made { OnOk result ((core : State) → AgreesWith core tables.old →
        AgreesWith (replayed core kept.now) tables.new) }
{
    let contamination = repeat(tables, kept)?;
    write_noting(kept, &contamination, text)
}

/// Appends the entries of a machine's journal, the oldest first, each with its actor's
/// contamination before it.
fn append_past(alloc: Global, core: &Core, text: &mut Vec<u8>) -> Result<(), NoMemory>
    ensures { OnOk result (text.new.items ≡ text.old.items
        ++ flat_map noted_text (noted core.now.0 core.now.1)) }
{
    let mut tables = Tables::begin(alloc, core.start_of())?;
    let entries = core.journal();
    for kept in entries {
        append_entry(&mut tables, kept, text)?;
    }
    Ok(())
}

/// Appends a machine's journal in its second version.
fn append_journal(alloc: Global, core: &Core, text: &mut Vec<u8>) -> Result<(), NoMemory>
    ensures { OnOk result (text.new.items ≡ text.old.items
        ++ journal_text core.now.0 (noted core.now.0 core.now.1)) }
{
    write_head(core.start_of(), text)?;
    append_past(alloc, core, text)
}

/// Appends the summary of a machine's journal.
fn append_report(core: &Core, text: &mut Vec<u8>) -> Result<(), NoMemory>
    ensures { OnOk result (text.new.items ≡ text.old.items ++ report_text core.now.1) }
{
    write_summary(&summary(core.journal()), text)
}

/// The summary of a machine's journal.
pub(crate) fn report_of(alloc: Global, core: &Core) -> Result<Vec<u8>, NoMemory>
    ensures { IfOk result (λ text. text.items ≡ report_text core.now.1) }
{
    let mut text = Vec::new(alloc);
    append_report(core, &mut text)?;
    Ok(text)
}

/// A machine's journal, a line, and the summary.
pub(crate) fn run_text(alloc: Global, core: &Core) -> Result<Vec<u8>, NoMemory>
    ensures { IfOk result (λ text. text.items ≡ run_text core.now.0 core.now.1) }
{
    let mut text = Vec::new(alloc);
    append_journal(alloc, core, &mut text)?;
    text.extend_from_slice(b"---\n")?;
    append_report(core, &mut text)?;
    Ok(text)
}
