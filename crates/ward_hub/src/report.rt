//! What is told of a journal.

use crate::stop::Stop;
use df_audit::{check_text, purge_text};
use df_journal_text::{write_head, write_noted, write_unit};
use df_label::Label;
use df_machine::Core;
use df_memory::NoMemory;
use df_unit::{Entry, Noted, UnitName};
use df_upgrade::note;
use std::alloc::Global;

/// Appends the entries of one unit.
fn append_told(unit: &UnitName, notes: &[Noted], to: &mut Vec<u8>) -> Result<(), NoMemory> {
    for noted in notes {
        if let Entry::Done { actor, .. } = &noted.entry {
            if actor.same(unit) {
                write_noted(noted, to)?;
            }
        }
    }
    Ok(())
}

/// Appends, for each unit, what it asked and was told.
fn append_units(core: &Core, notes: &[Noted], to: &mut Vec<u8>) -> Result<(), NoMemory> {
    for place in 0..core.start_of().as_slice().len() {
        if let Some(unit) = core.unit_at(place) {
            to.extend_from_slice(b"-- unit ")?;
            write_unit(unit, to)?;
            to.push(b'\n')?;
            append_told(unit, notes, to)?;
        }
    }
    Ok(())
}

/// A journal in its second version.
fn journal_text(alloc: Global, core: &Core, notes: &[Noted]) -> Result<Vec<u8>, NoMemory> {
    let mut text = Vec::new(alloc);
    write_head(core.start_of(), &mut text)?;
    for noted in notes {
        write_noted(noted, &mut text)?;
    }
    Ok(text)
}

/// Appends whether a journal is right.
fn append_check(alloc: Global, journal: &[u8], to: &mut Vec<u8>) -> Result<(), Stop> {
    let audit = check_text(alloc, journal)?;
    to.extend_from_slice(audit.text.as_slice())?;
    Ok(())
}

/// Appends what stays of a journal at a label, and whether that is right.
fn append_purge(
    alloc: Global,
    label: &Label,
    journal: &[u8],
    to: &mut Vec<u8>,
) -> Result<(), Stop> {
    let audit = purge_text(alloc, label, journal)?;
    append_check(alloc, audit.text.as_slice(), to)?;
    to.extend_from_slice(audit.text.as_slice())?;
    Ok(())
}

/// What is told of a machine's journal, which has these notes.
fn report_by(alloc: Global, core: &Core, notes: &[Noted], label: &Label) -> Result<Vec<u8>, Stop> {
    let journal = journal_text(alloc, core, notes)?;
    let mut text = Vec::new(alloc);
    text.extend_from_slice(b"-- the journal\n")?;
    append_check(alloc, journal.as_slice(), &mut text)?;
    append_units(core, notes, &mut text)?;
    text.extend_from_slice(b"-- what the office may see of it\n")?;
    append_purge(alloc, label, journal.as_slice(), &mut text)?;
    Ok(text)
}

/// Whether a machine's journal is right, what each root asked and was told, and what stays of the
/// journal at a label.
pub(crate) fn report_of(alloc: Global, core: &Core, label: &Label) -> Result<Vec<u8>, Stop> {
    let notes = note(alloc, core.start_of(), core.journal())?;
    let text = report_by(alloc, core, notes.as_slice(), label);
    drop(notes);
    text
}
