//! Whole journals.
ghost use Rattle.std.specs.Prelude.{◌≡◌, ◌≤◌, ◌+◌, ◌++◌, ◌↔◌, List, ℕ, IfErr, IfOk, IsTrue, drop, length, map};
ghost use Rattle.df_lines.specs.FirstBad.{IsFirstBad};
ghost use Rattle.df_lines.specs.Refused.{IsRefused, NamesBadLine};
ghost use Rattle.df_lines.specs.code.Faults.{IsInside};
ghost use Rattle.df_lines.specs.declared.refused.FileRefused.TheVariants as refused;
ghost use Rattle.df_start.specs.declared.start.RootStart.{RootStart};
ghost use Rattle.df_unit.specs.declared.entry.Entry.{Entry};
ghost use Rattle.df_unit.specs.declared.entry.Noted.{Noted};
ghost use Rattle.df_journal_text.specs.Start.{journal_text};
ghost use Rattle.df_journal_file.specs.Either.{First, IsEitherText, IsFirstOf, IsJournalOf, IsSecondOf, Second, journal_by, journal_in};
ghost use Rattle.df_journal_file.specs.Journal.{EndsFile, IsNotedJournal, IsNotedText, IsPlainJournal, IsPlainText, IsRead, plain_text};
ghost use Rattle.df_journal_file.specs.TooLarge.{IsLargeIn};
ghost use Rattle.df_journal_file.specs.code.Files.{AreLeft, IsEitherFirst, IsFirstAt, IsText, IsWanted, StopsFirst, answered, first_of};
ghost use Rattle.df_journal_file.specs.code.Languages.{EntriesFrom};
ghost use Rattle.df_journal_file.specs.code.Stops.{StopsIn};

use crate::entry::entry_at;
use df_lines::{FileFault, FileRefused, file_refused, line_at};
use df_memory::NoMemory;
use df_script_text::roots_at;
use df_start::Start;
use df_unit::{Entry, Noted};
use std::alloc::Global;

/// A journal in one of its versions.
#[derive(Drop)]
pub enum Journal {
    First { start: Start, entries: Vec<Entry> },
    Second { start: Start, noted: Vec<Noted> },
}

/// Whether the first line is that of the second version, and the place behind it.
pub fn version_at(bytes: &[u8]) -> Result<(bool, usize), FileFault>
    ensures read { IfOk result (λ r. IsFirstAt (first_of r.0) bytes.now r.1) }
    ensures stops { IfErr result (StopsFirst IsEitherFirst bytes.now) }
{
    let Some((line, next)) = line_at(bytes, 0) else {
        return Err(FileFault::Bad(0));
    };
    if line == b"defcon-journal 1".as_slice() {
        return Ok((false, next));
    }
    if line != b"defcon-journal 2".as_slice() {
        return Err(FileFault::Bad(0));
    }
    Ok((true, next))
}

/// Whether no further entry is to be read: no byte is left, or the line `---` stands there.
pub fn is_end(bytes: &[u8], place: usize) -> bool
    requires { place ≤ length bytes.now }
    ensures { IsTrue result ↔ EndsFile (drop place bytes.now) }
{
    if place == bytes.len() {
        return true;
    }
    bytes[place..].starts_with(b"---\n")
}

/// Whether this version is wanted.
fn is_wanted(wanted: Option<bool>, has_notes: bool) -> bool
    ensures { IsTrue result ↔ IsWanted wanted has_notes }
{
    match wanted {
        Some(wanted) => wanted == has_notes,
        None => true,
    }
}

/// The entries from the place on.
fn entries_at(
    alloc: Global,
    bytes: &[u8],
    at: usize,
    has_notes: bool,
) -> Result<Vec<Noted>, FileFault>
    requires { at ≤ length bytes.now }
    ensures read { IfOk result (λ v. AreLeft has_notes bytes.now at v.items) }
    ensures stops { IfErr result (StopsIn (EntriesFrom has_notes) bytes.now at) }
{
    let mut entries = Vec::new(alloc);
    let mut place = at;
    'entries: while !is_end(bytes, place) {
        let (noted, next) = entry_at(alloc, bytes, place, has_notes)?;
        entries.push(noted)?;
        place = next;
    }
    Ok(entries)
}

/// The journal that these bytes are, in a version that is wanted: its version, its roots and its
/// entries, of which the first version notes nothing.
fn whole(
    alloc: Global,
    bytes: &[u8],
    wanted: Option<bool>,
) -> Result<(bool, Start, Vec<Noted>), FileFault>
    ensures version { IfOk result (λ w. IsWanted wanted w.0) }
    ensures read { IfOk result (λ w. IsJournalOf (journal_by w.0 w.1 w.2.items) bytes.now) }
    ensures stops { IfErr result (StopsIn (IsText wanted) bytes.now 0) }
{
    let (has_notes, at) = version_at(bytes)?;
    if !is_wanted(wanted, has_notes) {
        return Err(FileFault::Bad(0));
    }
    let (start, place) = roots_at(alloc, bytes, at)?;
    let noted = entries_at(alloc, bytes, place, has_notes)?;
    Ok((has_notes, start, noted))
}

/// The entries without what is noted of them.
fn entries_of(alloc: Global, noted: Vec<Noted>) -> Result<Vec<Entry>, NoMemory>
    ensures { IfOk result (λ v. v.items ≡ map (λ n. n.entry) noted.items) }
{
    let mut entries = Vec::new(alloc);
    'noted: for n in noted {
        entries.push(n.entry)?;
    }
    Ok(entries)
}

/// The journal in its first version that these bytes are.
fn plain_whole(alloc: Global, bytes: &[u8]) -> Result<(Start, Vec<Entry>), FileFault>
    ensures read { IfOk result (λ s. IsJournalOf (First s.0 s.1.items) bytes.now) }
    ensures stops { IfErr result (StopsIn IsPlainText bytes.now 0) }
{
    let (_, start, noted) = whole(alloc, bytes, Some(false))?;
    Ok((start, entries_of(alloc, noted)?))
}

/// The journal in its second version that these bytes are.
fn noted_whole(alloc: Global, bytes: &[u8]) -> Result<(Start, Vec<Noted>), FileFault>
    ensures read { IfOk result (λ s. IsJournalOf (Second s.0 s.1.items) bytes.now) }
    ensures stops { IfErr result (StopsIn IsNotedText bytes.now 0) }
{
    let (_, start, noted) = whole(alloc, bytes, Some(true))?;
    Ok((start, noted))
}

/// The journal in one of its versions that these bytes are.
fn either_whole(alloc: Global, bytes: &[u8]) -> Result<Journal, FileFault>
    ensures read { IfOk result (λ j. IsJournalOf (journal_in j) bytes.now) }
    ensures stops { IfErr result (StopsIn IsEitherText bytes.now 0) }
{
    let (has_notes, start, noted) = whole(alloc, bytes, None)?;
    if has_notes {
        return Ok(Journal::Second { start, noted });
    }
    let entries = entries_of(alloc, noted)?;
    Ok(Journal::First { start, entries })
}

/// What was read, or the refusal of its fault.
fn answered<J: Drop>(bytes: &[u8], read: Result<J, FileFault>) -> Result<J, FileRefused>
    requires { IfErr read (IsInside bytes.now) }
    ensures { result ≡ answered bytes.now read }
{
    match read {
        Ok(journal) => Ok(journal),
        Err(fault) => Err(file_refused(bytes, fault)),
    }
}

/// Reads a journal in its first version.
pub fn read_journal(alloc: Global, bytes: &[u8]) -> Result<(Start, Vec<Entry>), FileRefused>
    ensures read { IfOk result (λ s. IsPlainJournal s.0 s.1.items
        × ((end : List ℕ) × EndsFile end × (bytes.now ≡ plain_text s.0 s.1.items ++ end))) }
    ensures only { (roots : List RootStart) (entries : List Entry) (end : List ℕ)
        → IsPlainJournal roots entries → EndsFile end
        → bytes.now ≡ plain_text roots entries ++ end
        → IsRead (λ s. (s.0 ≡ roots) × (s.1.items ≡ entries)) result }
    ensures refused { IfErr result (NamesBadLine IsPlainText (IsLargeIn IsPlainText) bytes.now) }
    ensures syntax { (before : List (List ℕ)) (bad : List ℕ)
        → IsFirstBad IsPlainText bytes.now before bad → ¬ IsLargeIn IsPlainText before bad
        → IsRefused (refused.Syntax (length before + 1)) result }
    ensures too_large { (before : List (List ℕ)) (bad : List ℕ)
        → IsFirstBad IsPlainText bytes.now before bad → IsLargeIn IsPlainText before bad
        → IsRefused (refused.TooLarge (length before + 1)) result }
{
    answered(bytes, plain_whole(alloc, bytes))
}

/// Reads a journal in its second version, with what is noted of each entry.
pub fn read_noted(alloc: Global, bytes: &[u8]) -> Result<(Start, Vec<Noted>), FileRefused>
    ensures read { IfOk result (λ s. IsNotedJournal s.0 s.1.items
        × ((end : List ℕ) × EndsFile end × (bytes.now ≡ journal_text s.0 s.1.items ++ end))) }
    ensures only { (roots : List RootStart) (noted : List Noted) (end : List ℕ)
        → IsNotedJournal roots noted → EndsFile end
        → bytes.now ≡ journal_text roots noted ++ end
        → IsRead (λ s. (s.0 ≡ roots) × (s.1.items ≡ noted)) result }
    ensures refused { IfErr result (NamesBadLine IsNotedText (IsLargeIn IsNotedText) bytes.now) }
    ensures syntax { (before : List (List ℕ)) (bad : List ℕ)
        → IsFirstBad IsNotedText bytes.now before bad → ¬ IsLargeIn IsNotedText before bad
        → IsRefused (refused.Syntax (length before + 1)) result }
    ensures too_large { (before : List (List ℕ)) (bad : List ℕ)
        → IsFirstBad IsNotedText bytes.now before bad → IsLargeIn IsNotedText before bad
        → IsRefused (refused.TooLarge (length before + 1)) result }
{
    answered(bytes, noted_whole(alloc, bytes))
}

/// Reads a journal in the version that its first line names.
pub fn read_either(alloc: Global, bytes: &[u8]) -> Result<Journal, FileRefused>
    ensures read { IfOk result (λ j. IsJournalOf (journal_in j) bytes.now) }
    ensures first { (roots : List RootStart) (entries : List Entry) (end : List ℕ)
        → IsPlainJournal roots entries → EndsFile end
        → bytes.now ≡ plain_text roots entries ++ end
        → IsRead (λ j. IsFirstOf roots entries (journal_in j)) result }
    ensures second { (roots : List RootStart) (noted : List Noted) (end : List ℕ)
        → IsNotedJournal roots noted → EndsFile end
        → bytes.now ≡ journal_text roots noted ++ end
        → IsRead (λ j. IsSecondOf roots noted (journal_in j)) result }
    ensures refused { IfErr result (NamesBadLine IsEitherText (IsLargeIn IsEitherText) bytes.now) }
    ensures syntax { (before : List (List ℕ)) (bad : List ℕ)
        → IsFirstBad IsEitherText bytes.now before bad → ¬ IsLargeIn IsEitherText before bad
        → IsRefused (refused.Syntax (length before + 1)) result }
    ensures too_large { (before : List (List ℕ)) (bad : List ℕ)
        → IsFirstBad IsEitherText bytes.now before bad → IsLargeIn IsEitherText before bad
        → IsRefused (refused.TooLarge (length before + 1)) result }
{
    answered(bytes, either_whole(alloc, bytes))
}
