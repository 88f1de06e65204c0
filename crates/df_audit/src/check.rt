//! Checks of journals.
ghost use Rattle.std.specs.Prelude.{◌≡◌, IfErr, IfOk, IfSome};
ghost use Rattle.df_lines.specs.Refused.{NamesBadLine};
ghost use Rattle.df_audit.specs.declared.audit.Finding.TheVariants.{Right, Wrong};
ghost use Rattle.df_journal_text.specs.Entry.{entry_text};
ghost use Rattle.df_journal_file.specs.Either.{IsEitherText, journal_in};
ghost use Rattle.df_journal_file.specs.TooLarge.{IsLargeIn};
ghost use Rattle.df_audit.specs.Audit.{IsCheckOf, IsCheckOfFirst, IsCheckOfSecond, OfJournal, valid_text, wrong_text};

use crate::audit::{Audit, Finding};
use crate::pass::{Wanted, right_text};
use crate::text::{valid_text, wrong_text};
use df_check::{NotedVerdict, Verdict, check, check_noted};
use df_journal_file::{Journal, read_either};
use df_label::Label;
use df_lines::FileRefused;
use df_memory::NoMemory;
use df_start::Start;
use df_unit::{Entry, Noted};
use std::alloc::Global;

/// Whether the journal that these bytes are is right, in words. Where it is, no entry is kept. Any
/// other is gone over twice: its first bad line, or first wrong place, is told of the whole.
pub fn check_text(alloc: Global, bytes: &[u8]) -> Result<Audit, FileRefused>
    ensures tells { IfOk result (λ audit. OfJournal bytes.now (λ journal.
        IsCheckOf journal audit.finding audit.text.items)) }
    ensures refuses { IfErr result (NamesBadLine IsEitherText (IsLargeIn IsEitherText) bytes.now) }
{
    match counted(alloc, bytes) {
        Ok(Some(audit)) => Ok(audit),
        Ok(None) => check_whole(alloc, bytes),
        Err(NoMemory) => Err(FileRefused::NoMemory),
    }
}

/// What is told of the journal that these bytes are, where it is right.
fn counted(alloc: Global, bytes: &[u8]) -> Result<Option<Audit>, NoMemory>
    ensures { IfOk result (λ told. IfSome told (λ audit. OfJournal bytes.now (λ journal.
        IsCheckOf journal audit.finding audit.text.items))) }
{
    let Some((made, tables)) = right_text(alloc, bytes, &Wanted::Count)? else {
        return Ok(None);
    };
    let audit = right(alloc, made.count)?;
    Ok(Some(audit.leaving(tables)))
}

/// Whether the whole journal that these bytes are is right, or where it first isn't.
fn check_whole(alloc: Global, bytes: &[u8]) -> Result<Audit, FileRefused>
    ensures tells { IfOk result (λ audit. OfJournal bytes.now (λ journal.
        IsCheckOf journal audit.finding audit.text.items)) }
    ensures refuses { IfErr result (NamesBadLine IsEitherText (IsLargeIn IsEitherText) bytes.now) }
{
    let journal = match read_either(alloc, bytes) {
        Ok(journal) => journal,
        Err(refused) => return Err(refused),
    };
    match checked(alloc, &journal) {
        Ok(audit) => Ok(audit),
        Err(NoMemory) => Err(FileRefused::NoMemory),
    }
}

fn checked(alloc: Global, journal: &Journal) -> Result<Audit, NoMemory>
    ensures { IfOk result (λ audit. IsCheckOf (journal_in journal.now) audit.finding audit.text.items) }
{
    match journal {
        Journal::First { start, entries } => checked_first(alloc, start, entries.as_slice()),
        Journal::Second { start, noted } => checked_second(alloc, start, noted.as_slice()),
    }
}

fn checked_first(alloc: Global, start: &Start, entries: &[Entry]) -> Result<Audit, NoMemory>
    ensures { IfOk result (λ audit.
        IsCheckOfFirst start.now entries.now audit.finding audit.text.items) }
{
    match check(alloc, start, entries)? {
        Verdict::Valid => right(alloc, entries.len()),
        Verdict::Wrong { place, expected } => {
            let kept = &entries[place as usize];
            let told = wrong(alloc, place, kept, &None, &expected, &None);
            drop(expected);
            told
        }
    }
}

fn checked_second(alloc: Global, start: &Start, notes: &[Noted]) -> Result<Audit, NoMemory>
    ensures { IfOk result (λ audit.
        IsCheckOfSecond start.now notes.now audit.finding audit.text.items) }
{
    match check_noted(alloc, start, notes)? {
        NotedVerdict::Valid => right(alloc, notes.len()),
        NotedVerdict::Wrong { place, expected } => {
            let kept = &notes[place as usize];
            let told = wrong(
                alloc,
                place,
                &kept.entry,
                &kept.contamination,
                &expected.entry,
                &expected.contamination,
            );
            drop(expected);
            told
        }
    }
}

/// What is told of a right journal with so many entries.
fn right(alloc: Global, count: usize) -> Result<Audit, NoMemory>
    ensures finding { IfOk result (λ audit. audit.finding ≡ Right) }
    ensures text { IfOk result (λ audit. audit.text.items ≡ valid_text count) }
{
    let text = valid_text(alloc, count)?;
    Ok(Audit::new(Finding::Right, text))
}

/// What is told of a wrong place.
fn wrong(
    alloc: Global,
    place: u64,
    kept: &Entry,
    kept_note: &Option<Label>,
    expected: &Entry,
    expected_note: &Option<Label>,
) -> Result<Audit, NoMemory>
    ensures finding { IfOk result (λ audit. audit.finding ≡ Wrong place) }
    ensures text { IfOk result (λ audit. audit.text.items ≡ wrong_text place
        (entry_text kept_note.now kept.now) (entry_text expected_note.now expected.now)) }
{
    let text = wrong_text(alloc, place, kept, kept_note, expected, expected_note)?;
    Ok(Audit::new(Finding::Wrong { place }, text))
}
