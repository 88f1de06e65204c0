ghost use Rattle.std.specs.Prelude.{◌≡◌, ◌∷◌, ◌++◌, ◌<◌, [], IfOk, OnOk, reverse};
ghost use Rattle.std.specs.VecDeque.{deque_len};
ghost use Rattle.df_machine.specs.Journal.{firsts};
ghost use Rattle.df_rules.specs.Legal.{Legal};
ghost use Rattle.df_rules.specs.Start.{rows};
ghost use Rattle.df_replay.specs.Noted.{noted};
ghost use Rattle.df_upgrade.specs.Notes.{JudgesAndNotes, MovesFirst};

use df_label::Label;
use df_machine::Tables;
use df_memory::NoMemory;
use df_replay::{Compared, compare, copy_entry};
use df_start::Start;
use df_unit::{Entry, Noted};
use std::alloc::Global;
use std::collections::VecDeque;

/// A legal journal with its notes, or the first wrong place of another. A place counts the entries
/// before it.
#[derive(Drop)]
pub enum Judged {
    Right { notes: Vec<Noted> },
    Wrong { place: u64, expected: Entry },
}

/// Each entry of a journal, the oldest first, with the contamination that its actor has before it,
/// where the journal is legal from the start; else the first place with another entry than the
/// rules give, and the entry that they give. The entries are moved.
pub fn judge_and_note(alloc: Global, start: &Start, journal: Vec<Entry>) -> Result<Judged, NoMemory>
    ensures { IfOk result (JudgesAndNotes start.now journal.items) }
{
    let mut tables = Tables::begin(alloc, start)?;
    let mut notes = Vec::with_capacity(alloc, journal.len())?;
    let mut left = VecDeque::from(journal);
    'entries: while let Some(kept) = left.front() {
        match compare(&mut tables, kept)? {
            Compared::Same { contamination } => note_first(&mut left, contamination, &mut notes)?,
            Compared::Other { expected } => {
                let place = notes.len() as u64;
                let expected = expected.entry;
                return Ok(Judged::Wrong { place, expected });
            }
        }
    }
    Ok(Judged::Right { notes })
}

/// Moves the first of the entries that are left to the notes, with this contamination.
fn note_first(
    left: &mut VecDeque<Entry>,
    contamination: Option<Label>,
    to: &mut Vec<Noted>,
) -> Result<(), NoMemory>
    requires { 0 < deque_len left.old }
    ensures { OnOk result (MovesFirst left.old.items left.new.items contamination
        to.old.items to.new.items) }
{
    let Some(entry) = left.pop_front() else {
        unreachable!()
    };
    add_note(to, entry, contamination)
}

/// Appends a note of an entry.
fn add_note(to: &mut Vec<Noted>, entry: Entry, contamination: Option<Label>) -> Result<(), NoMemory>
    ensures { OnOk result (to.new.items ≡
        to.old.items ++ record { entry = entry; contamination = contamination } ∷ []) }
{
    to.push(Noted {
        entry,
        contamination,
    })?;
    Ok(())
}

/// Each entry of a legal journal, the oldest first, with the contamination that its actor has
/// before it.
pub fn note(alloc: Global, start: &Start, journal: &[Entry]) -> Result<Vec<Noted>, NoMemory>
    requires { Legal rows (firsts start.now) (reverse journal.now) }
    ensures { IfOk result (λ notes. notes.items ≡ noted start.now (reverse journal.now)) }
{
    let entries = copy_entries(alloc, journal)?;
    match judge_and_note(alloc, start, entries)? {
        Judged::Right { notes } => Ok(notes),
        Judged::Wrong { .. } => unreachable!(),
    }
}

fn copy_entries(alloc: Global, journal: &[Entry]) -> Result<Vec<Entry>, NoMemory>
    ensures { IfOk result (λ copies. copies.items ≡ journal.now) }
{
    let mut copies = Vec::with_capacity(alloc, journal.len())?;
    for kept in journal {
        copies.push(copy_entry(kept)?)?;
    }
    Ok(copies)
}
