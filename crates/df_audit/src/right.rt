//! What is made of a journal that is right.
ghost use Rattle.std.specs.Prelude.{◌≡◌, [], IfErr, IfOk};
ghost use Rattle.df_lines.specs.Refused.{NamesBadLine};
ghost use Rattle.df_journal_text.specs.Start.{journal_text};
ghost use Rattle.df_journal_file.specs.Either.{IsEitherText, journal_in};
ghost use Rattle.df_journal_file.specs.TooLarge.{IsLargeIn};
ghost use Rattle.df_audit.specs.Audit.{OfJournal, Purges, Upgrades};
ghost use Rattle.df_audit.specs.code.Noting.{IsNotedOf, IsNotedOfFirst, IsNotedOfSecond};
ghost use Rattle.df_audit.specs.declared.audit.Finding.TheVariants.{Right, Wrong};

use crate::audit::{Audit, Finding};
use crate::pass::{Made, Wanted, right_text};
use crate::text::noted_text;
use df_check::{NotedVerdict, check_noted};
use df_journal_file::{Journal, read_either};
use df_label::Label;
use df_lines::FileRefused;
use df_machine::Tables;
use df_memory::NoMemory;
use df_purge::purge_noted;
use df_start::Start;
use df_unit::{Entry, Noted};
use df_upgrade::{Judged, judge_and_note};
use std::alloc::Global;

/// A journal with the notes that are right, or its first wrong place.
#[derive(Drop)]
pub enum Noting {
    Noted { start: Start, notes: Vec<Noted> },
    Wrong { place: u64 },
}

/// The purge at the label of the journal that these bytes are, in the second version. Where it is
/// right, no entry is kept; any other is gone over twice.
pub fn purge_text(alloc: Global, label: &Label, bytes: &[u8]) -> Result<Audit, FileRefused>
    ensures tells { IfOk result (λ audit. OfJournal bytes.now (λ journal.
        Purges label.now journal audit.finding audit.text.items)) }
    ensures refuses { IfErr result (NamesBadLine IsEitherText (IsLargeIn IsEitherText) bytes.now) }
{
    match right_text(alloc, bytes, &Wanted::Purge(label)) {
        Ok(Some((made, tables))) => Ok(right(made, tables)),
        Ok(None) => purge_whole(alloc, label, bytes),
        Err(NoMemory) => Err(FileRefused::NoMemory),
    }
}

/// The purge of the whole journal that these bytes are, or where it first isn't right.
fn purge_whole(alloc: Global, label: &Label, bytes: &[u8]) -> Result<Audit, FileRefused>
    ensures tells { IfOk result (λ audit. OfJournal bytes.now (λ journal.
        Purges label.now journal audit.finding audit.text.items)) }
    ensures refuses { IfErr result (NamesBadLine IsEitherText (IsLargeIn IsEitherText) bytes.now) }
{
    let journal = match read_either(alloc, bytes) {
        Ok(journal) => journal,
        Err(refused) => return Err(refused),
    };
    match purged(alloc, label, journal) {
        Ok(audit) => Ok(audit),
        Err(NoMemory) => Err(FileRefused::NoMemory),
    }
}

/// The journal that these bytes are, in the second version. Where it is right, no entry is kept;
/// any other is gone over twice.
pub fn upgrade_text(alloc: Global, bytes: &[u8]) -> Result<Audit, FileRefused>
    ensures tells { IfOk result (λ audit. OfJournal bytes.now (λ journal.
        Upgrades journal audit.finding audit.text.items)) }
    ensures refuses { IfErr result (NamesBadLine IsEitherText (IsLargeIn IsEitherText) bytes.now) }
{
    match right_text(alloc, bytes, &Wanted::Notes) {
        Ok(Some((made, tables))) => Ok(right(made, tables)),
        Ok(None) => upgrade_whole(alloc, bytes),
        Err(NoMemory) => Err(FileRefused::NoMemory),
    }
}

/// The whole journal that these bytes are, in the second version, or where it first isn't right.
fn upgrade_whole(alloc: Global, bytes: &[u8]) -> Result<Audit, FileRefused>
    ensures tells { IfOk result (λ audit. OfJournal bytes.now (λ journal.
        Upgrades journal audit.finding audit.text.items)) }
    ensures refuses { IfErr result (NamesBadLine IsEitherText (IsLargeIn IsEitherText) bytes.now) }
{
    let journal = match read_either(alloc, bytes) {
        Ok(journal) => journal,
        Err(refused) => return Err(refused),
    };
    match upgraded(alloc, journal) {
        Ok(audit) => Ok(audit),
        Err(NoMemory) => Err(FileRefused::NoMemory),
    }
}

fn purged(alloc: Global, label: &Label, journal: Journal) -> Result<Audit, NoMemory>
    ensures { IfOk result (λ audit.
        Purges label.now (journal_in journal) audit.finding audit.text.items) }
{
    let (start, notes) = match right_notes(alloc, journal)? {
        Noting::Noted { start, notes } => (start, notes),
        Noting::Wrong { place } => return Ok(silent(alloc, place)),
    };
    let left = purge_noted(alloc, label, notes.as_slice())?;
    told(alloc, &start, left.as_slice())
}

fn upgraded(alloc: Global, journal: Journal) -> Result<Audit, NoMemory>
    ensures { IfOk result (λ audit.
        Upgrades (journal_in journal) audit.finding audit.text.items) }
{
    match right_notes(alloc, journal)? {
        Noting::Noted { start, notes } => told(alloc, &start, notes.as_slice()),
        Noting::Wrong { place } => Ok(silent(alloc, place)),
    }
}

/// The journal with its notes, where it is right.
pub fn right_notes(alloc: Global, journal: Journal) -> Result<Noting, NoMemory>
    ensures { IfOk result (IsNotedOf (journal_in journal)) }
{
    match journal {
        Journal::First { start, entries } => first_notes(alloc, start, entries),
        Journal::Second { start, noted } => second_notes(alloc, start, noted),
    }
}

/// The notes of a journal in its first version, where it is right.
fn first_notes(alloc: Global, start: Start, entries: Vec<Entry>) -> Result<Noting, NoMemory>
    ensures { IfOk result (IsNotedOfFirst start entries.items) }
{
    match judge_and_note(alloc, &start, entries) {
        Ok(Judged::Right { notes }) => Ok(Noting::Noted { start, notes }),
        Ok(Judged::Wrong { place, expected }) => {
            drop((start, expected));
            Ok(Noting::Wrong { place })
        }
        Err(refused) => {
            drop(start);
            Err(refused)
        }
    }
}

/// The notes of a journal in its second version, where it is right.
fn second_notes(alloc: Global, start: Start, notes: Vec<Noted>) -> Result<Noting, NoMemory>
    ensures { IfOk result (IsNotedOfSecond start notes.items) }
{
    match check_noted(alloc, &start, notes.as_slice()) {
        Ok(NotedVerdict::Valid) => Ok(Noting::Noted { start, notes }),
        Ok(NotedVerdict::Wrong { place, expected }) => {
            drop((start, notes, expected));
            Ok(Noting::Wrong { place })
        }
        Err(refused) => {
            drop((start, notes));
            Err(refused)
        }
    }
}

/// The text of noted entries.
fn told(alloc: Global, start: &Start, notes: &[Noted]) -> Result<Audit, NoMemory>
    ensures finding { IfOk result (λ audit. audit.finding ≡ Right) }
    ensures text { IfOk result (λ audit. audit.text.items ≡ journal_text start.now notes.now) }
{
    let text = noted_text(alloc, start, notes)?;
    Ok(Audit::new(Finding::Right, text))
}

/// What was made of a right journal, with the tables behind it.
fn right(made: Made, tables: Tables) -> Audit
    ensures finding { result.finding ≡ Right }
    ensures text { result.text ≡ made.text }
{
    Audit::new(Finding::Right, made.text).leaving(tables)
}

/// Nothing but a wrong place.
pub fn silent(alloc: Global, place: u64) -> Audit
    ensures finding { result.finding ≡ Wrong place }
    ensures text { result.text.items ≡ [] }
{
    Audit::new(Finding::Wrong { place }, Vec::new(alloc))
}
