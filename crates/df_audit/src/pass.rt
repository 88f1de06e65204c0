//! A journal is gone over entry by entry, and none is kept. This finds that it is right and makes
//! what is wanted of it. Of any other it tells nothing: why it isn't right the whole journal tells.
ghost use Rattle.std.specs.Prelude.{◌≡◌, ◌++◌, ◌+◌, ◌<◌, ◌^◌, ℕ, true, List, [], IfOk, IfSome, OnOk};
ghost use Rattle.std.specs.List.{flat_map};
ghost use Rattle.df_machine.specs.Journal.{State};
ghost use Rattle.df_machine.specs.Tables.{AgreesWith};
ghost use Rattle.df_start.specs.declared.start.RootStart.{RootStart};
ghost use Rattle.df_unit.specs.declared.entry.Noted.{Noted};
ghost use Rattle.df_purge.specs.code.Left.{left_noted};
ghost use Rattle.df_journal_text.specs.Entry.{noted_text};
ghost use Rattle.df_journal_file.specs.Cursor.{HasPassed};
ghost use Rattle.df_audit.specs.Audit.{OfJournal};
ghost use Rattle.df_audit.specs.code.Passing.{ComesTo, HasComeTo, IsJudged, IsMade, IsSoFar, TakesKept, TakesNote, TakesOne, front_of, wanted_of};

use crate::called::{NotedTables, ReadCall, take_call};
use crate::text::write_notes;
use df_journal_file::JournalCursor;
use df_journal_text::{Notes, write_head, write_noted};
use df_label::Label;
use df_lines::FileFault;
use df_machine::Tables;
use df_memory::NoMemory;
use df_purge::push_left;
use df_replay::{Compared, compare};
use df_start::Start;
use df_unit::Noted;
use std::alloc::Global;

/// What is wanted of a right journal: no text, the whole with its notes, or its purge.
#[derive(Drop)]
pub enum Wanted<'a> {
    Count,
    Notes,
    Purge(&'a Label),
}

/// What was made of a right journal: the number of its entries, and the text that was wanted.
#[derive(Drop)]
pub struct Made {
    pub count: usize,
    pub text: Vec<u8>,
}

/// What stands at the place: a right entry, with its contamination, the end, or anything else.
#[derive(Drop)]
pub enum Passed {
    Right(Noted),
    End,
    Other,
}

/// What is wanted of the journal that these bytes are, where it is right, and the tables behind it.
pub fn right_text(
    alloc: Global,
    bytes: &[u8],
    wanted: &Wanted<'_>,
) -> Result<Option<(Made, Tables)>, NoMemory>
    ensures { IfOk result (λ made. IfSome made (λ m.
        OfJournal bytes.now (IsMade wanted.now m.0.count m.0.text.items))) }
{
    let Some((start, mut cursor)) = begin(alloc, bytes)? else {
        return Ok(None);
    };
    let tables = Tables::begin(alloc, &start)?;
    let notes = Notes::new(alloc);
    let mut behind = NotedTables { tables, notes };
    let text = front(alloc, &start, wanted, bytes.len())?;
    let mut made = Made { count: 0, text };
    drop(start);
    match go_over(&mut cursor, &mut behind, wanted, &mut made) {
        Ok(true) => {
            drop((cursor, behind.notes));
            Ok(Some((made, behind.tables)))
        }
        Ok(false) => {
            drop((cursor, behind, made));
            Ok(None)
        }
        Err(refused) => {
            drop((cursor, behind, made));
            Err(refused)
        }
    }
}

/// Goes over the entries that are left: whether all are right, to the end.
fn go_over(
    cursor: &mut JournalCursor<'_>,
    behind: &mut NotedTables,
    wanted: &Wanted<'_>,
    made: &mut Made,
) -> Result<bool, NoMemory>
    requires { (roots : List RootStart) × (read : List Noted) × IsSoFar wanted.now roots
        cursor.old.bytes read cursor.old behind.old.tables made.old.count made.old.text.items }
    ensures { IfOk result (λ is_right. is_right ≡ true →
        OfJournal cursor.old.bytes (IsMade wanted.now made.new.count made.new.text.items)) }
{
    'entries: loop {
        if let Some(is_right) = take_next(cursor, behind, wanted, made)? {
            return Ok(is_right);
        }
    }
}

/// Takes the next entry in, and appends what is wanted of it. Where there is none that is right:
/// whether this is the end.
fn take_next(
    cursor: &mut JournalCursor<'_>,
    behind: &mut NotedTables,
    wanted: &Wanted<'_>,
    made: &mut Made,
) -> Result<Option<bool>, NoMemory>
    requires { (roots : List RootStart) × (bytes : List ℕ) × (read : List Noted)
        × IsSoFar wanted.now roots bytes read cursor.old behind.old.tables made.old.count
        made.old.text.items }
    ensures { IfOk result (λ ended. (roots : List RootStart) (bytes : List ℕ) (read : List Noted)
        → IsSoFar wanted.now roots bytes read cursor.old behind.old.tables made.old.count
        made.old.text.items → TakesOne wanted.now roots bytes read cursor.old ended cursor.new
        behind.new.tables made.new.count made.new.text.items) }
{
    if !cursor.has_notes() {
        return take_entry(cursor, &mut behind.tables, wanted, made);
    }
    if let Some(line) = cursor.common() {
        let place = behind.tables.root(line.root);
        let call = ReadCall::Common(line.ask);
        return take_call(cursor, behind, wanted, place, line.words, call, made);
    }
    take_line(cursor, behind, wanted, made)
}

/// Takes the next entry in, in a journal with notes, of whichever call it is, and appends what is
/// wanted of it. Where there is none that is right: whether this is the end.
#[inline(never)]
fn take_line(
    cursor: &mut JournalCursor<'_>,
    behind: &mut NotedTables,
    wanted: &Wanted<'_>,
    made: &mut Made,
) -> Result<Option<bool>, NoMemory>
    requires so_far { (roots : List RootStart) × (bytes : List ℕ) × (read : List Noted)
        × IsSoFar wanted.now roots bytes read cursor.old behind.old.tables made.old.count
        made.old.text.items }
    requires notes { cursor.old.has_notes ≡ true }
    ensures { IfOk result (λ ended. (roots : List RootStart) (bytes : List ℕ) (read : List Noted)
        → IsSoFar wanted.now roots bytes read cursor.old behind.old.tables made.old.count
        made.old.text.items → TakesOne wanted.now roots bytes read cursor.old ended cursor.new
        behind.new.tables made.new.count made.new.text.items) }
{
    let Some(line) = cursor.root_call() else {
        return take_unit_line(cursor, behind, wanted, made);
    };
    let place = behind.tables.root(line.root);
    let call = ReadCall::Any(&line.call);
    let ended = take_call(cursor, behind, wanted, place, line.words, call, made);
    drop(line);
    ended
}

/// Takes the next entry in, in a journal with notes, of a call of whichever unit, and appends what
/// is wanted of it. Where there is none that is right: whether this is the end.
#[inline(never)]
fn take_unit_line(
    cursor: &mut JournalCursor<'_>,
    behind: &mut NotedTables,
    wanted: &Wanted<'_>,
    made: &mut Made,
) -> Result<Option<bool>, NoMemory>
    requires so_far { (roots : List RootStart) × (bytes : List ℕ) × (read : List Noted)
        × IsSoFar wanted.now roots bytes read cursor.old behind.old.tables made.old.count
        made.old.text.items }
    requires notes { cursor.old.has_notes ≡ true }
    ensures { IfOk result (λ ended. (roots : List RootStart) (bytes : List ℕ) (read : List Noted)
        → IsSoFar wanted.now roots bytes read cursor.old behind.old.tables made.old.count
        made.old.text.items → TakesOne wanted.now roots bytes read cursor.old ended cursor.new
        behind.new.tables made.new.count made.new.text.items) }
{
    let Some(read) = cursor.call() else {
        return take_entry(cursor, &mut behind.tables, wanted, made);
    };
    let place = behind.tables.place(&read.line.actor);
    let call = ReadCall::Any(&read.line.call);
    let ended = take_call(cursor, behind, wanted, place, read.words, call, made);
    drop(read);
    ended
}

/// Takes the next entry in, which is read whole, and appends what is wanted of it. Where there is
/// none that is right: whether this is the end.
#[inline(never)]
fn take_entry(
    cursor: &mut JournalCursor<'_>,
    tables: &mut Tables,
    wanted: &Wanted<'_>,
    made: &mut Made,
) -> Result<Option<bool>, NoMemory>
    requires { (roots : List RootStart) × (bytes : List ℕ) × (read : List Noted)
        × IsSoFar wanted.now roots bytes read cursor.old tables.old made.old.count
        made.old.text.items }
    ensures { IfOk result (λ ended. (roots : List RootStart) (bytes : List ℕ) (read : List Noted)
        → IsSoFar wanted.now roots bytes read cursor.old tables.old made.old.count
        made.old.text.items → TakesOne wanted.now roots bytes read cursor.old ended cursor.new
        tables.new made.new.count made.new.text.items) }
{
    match next_right(cursor, tables)? {
        Passed::Right(noted) => {
            take_right(wanted, noted, made)?;
            Ok(None)
        }
        Passed::End => Ok(Some(true)),
        Passed::Other => Ok(Some(false)),
    }
}

/// Counts a right entry, and appends what is wanted of it.
fn take_right(wanted: &Wanted<'_>, noted: Noted, made: &mut Made) -> Result<(), NoMemory>
    requires few { made.old.count + 1 < 2 ^ 64 }
    ensures count { made.new.count ≡ made.old.count + 1 }
    ensures text { OnOk result (made.new.text.items
        ≡ made.old.text.items ++ flat_map noted_text (wanted_of wanted.now noted)) }
{
    let written = write_wanted(wanted, &noted, &mut made.text);
    drop(noted);
    made.count += 1;
    written
}

/// The start of the journal, where it has one.
fn begin(alloc: Global, bytes: &[u8]) -> Result<Option<(Start, JournalCursor<'_>)>, NoMemory>
    ensures read { IfOk result (λ begun. IfSome begun (λ s. HasPassed s.0 [] s.1)) }
    ensures bytes { IfOk result (λ begun. IfSome begun (λ s. s.1.bytes ≡ bytes.now)) }
{
    match JournalCursor::begin(alloc, bytes) {
        Ok(begun) => Ok(Some(begun)),
        Err(FileFault::NoMemory) => Err(NoMemory),
        Err(_) => Ok(None),
    }
}

/// What stands in front of the text that is wanted, with room for as many bytes as the journal has.
fn front(
    alloc: Global,
    start: &Start,
    wanted: &Wanted<'_>,
    room: usize,
) -> Result<Vec<u8>, NoMemory>
    ensures { IfOk result (λ text. text.items ≡ front_of wanted.now start.now) }
{
    match wanted {
        Wanted::Count => Ok(Vec::new(alloc)),
        Wanted::Notes | Wanted::Purge(_) => {
            let mut text = Vec::with_capacity(alloc, room)?;
            write_head(start, &mut text)?;
            Ok(text)
        }
    }
}

/// The next entry, taken in by the tables, where it is the one that the rules give.
fn next_right(cursor: &mut JournalCursor<'_>, tables: &mut Tables) -> Result<Passed, NoMemory>
    requires { (core : State) × AgreesWith core tables.old }
    ensures { IfOk result (λ passed. (roots : List RootStart) (read : List Noted)
        → HasComeTo roots read cursor.old tables.old
        → ComesTo roots read cursor.old passed cursor.new tables.new) }
{
    match cursor.next_entry() {
        Ok(Some(kept)) => take_kept(cursor.has_notes(), tables, kept),
        Ok(None) => Ok(Passed::End),
        Err(FileFault::NoMemory) => Err(NoMemory),
        Err(_) => Ok(Passed::Other),
    }
}

/// A kept entry, where it is the one that the rules give. The tables take that one in.
fn take_kept(has_notes: bool, tables: &mut Tables, kept: Noted) -> Result<Passed, NoMemory>
    requires { (core : State) × AgreesWith core tables.old }
    ensures { IfOk result (λ passed. (core : State) → AgreesWith core tables.old →
        TakesKept core has_notes kept passed tables.new) }
{
    let compared = compare(tables, &kept.entry);
    judged(has_notes, kept, compared)
}

/// A kept entry, where by this it is the one that the rules give.
fn judged(
    has_notes: bool,
    kept: Noted,
    compared: Result<Compared, NoMemory>,
) -> Result<Passed, NoMemory>
    ensures { IfOk result (IsJudged has_notes kept compared) }
{
    match compared {
        Ok(Compared::Same { contamination }) => Ok(noted(has_notes, kept, contamination)),
        Ok(Compared::Other { expected }) => {
            drop(kept);
            drop(expected);
            Ok(Passed::Other)
        }
        Err(refused) => {
            drop(kept);
            Err(refused)
        }
    }
}

/// A kept entry with its contamination. Where notes stand, only one passes that has none, as what
/// was emitted.
fn noted(has_notes: bool, kept: Noted, contamination: Option<Label>) -> Passed
    ensures { TakesNote has_notes kept contamination result }
{
    if has_notes && (contamination.is_some() || kept.contamination.is_some()) {
        drop(kept);
        drop(contamination);
        return Passed::Other;
    }
    let entry = kept.entry;
    drop(kept.contamination);
    Passed::Right(Noted {
        entry,
        contamination,
    })
}

/// Appends what is wanted of a noted entry.
fn write_wanted(wanted: &Wanted<'_>, noted: &Noted, to: &mut Vec<u8>) -> Result<(), NoMemory>
    ensures { OnOk result (to.new.items
        ≡ to.old.items ++ flat_map noted_text (wanted_of wanted.now noted.now)) }
{
    match wanted {
        Wanted::Count => Ok(()),
        Wanted::Notes => write_noted(noted, to),
        Wanted::Purge(label) => write_left(label, noted, to),
    }
}

/// Appends what stays of a noted entry at a label.
fn write_left(label: &Label, noted: &Noted, to: &mut Vec<u8>) -> Result<(), NoMemory>
    ensures { OnOk result (to.new.items
        ≡ to.old.items ++ flat_map noted_text (left_noted label.now noted.now)) }
{
    let mut left = Vec::new(*to.allocator());
    push_left(label, noted, &mut left)?;
    write_notes(left.as_slice(), to)
}
