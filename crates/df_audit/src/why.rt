//! Why an entry of a right journal stands.
ghost use Rattle.std.specs.Prelude.{◌≡◌, ◌<◌, [], All, IfErr, IfOk, length, map};
ghost use Rattle.df_lines.specs.Refused.{NamesBadLine};
ghost use Rattle.df_replay.specs.Noted.{AreRight};
ghost use Rattle.df_why.specs.Grounds.{at_places};
ghost use Rattle.df_journal_text.specs.Start.{journal_text};
ghost use Rattle.df_journal_file.specs.Either.{IsEitherText, journal_in};
ghost use Rattle.df_journal_file.specs.TooLarge.{IsLargeIn};
ghost use Rattle.df_audit.specs.Audit.{Explains, OfJournal};
ghost use Rattle.df_audit.specs.code.Picking.{AreGrounds, ExplainsNoted};
ghost use Rattle.df_audit.specs.declared.audit.Finding.TheVariants.{NoPlace};

use crate::audit::{Audit, Finding};
use crate::right::{Noting, right_notes, silent};
use df_journal_file::{Journal, read_either};
use df_journal_text::{write_head, write_noted};
use df_lines::FileRefused;
use df_memory::NoMemory;
use df_replay::copy_entry;
use df_start::Start;
use df_unit::{Entry, Noted};
use df_why::grounds;
use std::alloc::Global;

/// The entries on which the one at a place of the journal rests that these bytes are, in the second
/// version.
pub fn why_text(alloc: Global, place: u64, bytes: &[u8]) -> Result<Audit, FileRefused>
    ensures tells { IfOk result (λ audit. OfJournal bytes.now (λ journal.
        Explains place journal audit.finding audit.text.items)) }
    ensures refuses { IfErr result (NamesBadLine IsEitherText (IsLargeIn IsEitherText) bytes.now) }
{
    let journal = match read_either(alloc, bytes) {
        Ok(journal) => journal,
        Err(refused) => return Err(refused),
    };
    match explained(alloc, place, journal) {
        Ok(audit) => Ok(audit),
        Err(NoMemory) => Err(FileRefused::NoMemory),
    }
}

fn explained(alloc: Global, place: u64, journal: Journal) -> Result<Audit, NoMemory>
    ensures { IfOk result (λ audit.
        Explains place (journal_in journal) audit.finding audit.text.items) }
{
    match right_notes(alloc, journal)? {
        Noting::Noted { start, notes } => explain_noted(alloc, place, &start, notes.as_slice()),
        Noting::Wrong { place: first } => Ok(silent(alloc, first)),
    }
}

/// What is told of a place of a journal with the right notes.
fn explain_noted(
    alloc: Global,
    place: u64,
    start: &Start,
    notes: &[Noted],
) -> Result<Audit, NoMemory>
    requires { AreRight start.now notes.now }
    ensures { IfOk result (λ audit.
        ExplainsNoted place start.now notes.now audit.finding audit.text.items) }
{
    if place >= notes.len() as u64 {
        return Ok(no_place(alloc, notes.len()));
    }
    let places = grounds_of(alloc, start, notes, place as usize)?;
    let text = text_at(alloc, start, notes, places.as_slice())?;
    Ok(Audit::new(Finding::Right, text))
}

/// Nothing but the number of entries.
fn no_place(alloc: Global, count: usize) -> Audit
    ensures finding { result.finding ≡ NoPlace count }
    ensures text { result.text.items ≡ [] }
{
    let entries = count as u64;
    Audit::new(Finding::NoPlace { entries }, Vec::new(alloc))
}

/// The places on which the entry at a place rests.
fn grounds_of(
    alloc: Global,
    start: &Start,
    notes: &[Noted],
    place: usize,
) -> Result<Vec<u64>, NoMemory>
    requires right { AreRight start.now notes.now }
    requires place { place < length notes.now }
    ensures grounds { IfOk result (λ places.
        AreGrounds start.now (map (λ n. n.entry) notes.now) place places.items) }
    ensures within { IfOk result (λ places. All (λ p. p < length notes.now) places.items) }
{
    let entries = bare(alloc, notes)?;
    grounds(alloc, start, entries.as_slice(), place)
}

/// The entries without their notes.
fn bare(alloc: Global, notes: &[Noted]) -> Result<Vec<Entry>, NoMemory>
    ensures { IfOk result (λ entries. entries.items ≡ map (λ n. n.entry) notes.now) }
{
    let mut entries = Vec::with_capacity(alloc, notes.len())?;
    for noted in notes {
        entries.push(copy_entry(&noted.entry)?)?;
    }
    Ok(entries)
}

/// The journal of the noted entries at these places, in its second version.
fn text_at(
    alloc: Global,
    start: &Start,
    notes: &[Noted],
    places: &[u64],
) -> Result<Vec<u8>, NoMemory>
    requires { All (λ p. p < length notes.now) places.now }
    ensures { IfOk result (λ text. text.items
        ≡ journal_text start.now (at_places places.now notes.now)) }
{
    let mut text = Vec::new(alloc);
    write_head(start, &mut text)?;
    for place in places {
        write_noted(&notes[*place as usize], &mut text)?;
    }
    Ok(text)
}
