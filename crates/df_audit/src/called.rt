//! Entries of calls, in a journal with notes. Only the unit and the call are read. The call is
//! made, and its entry's lines are spelled. Where these are the next lines, the entry is right.
ghost use Rattle.std.specs.Prelude.{◌≡◌, ◌≤◌, ◌++◌, ℕ, true, false, List, IfOk, None, OnOk, Some, drop, length, option_copied, option_map, take};
ghost use Rattle.std.specs.List.{flat_map};
ghost use Rattle.df_machine.specs.Journal.{State};
ghost use Rattle.df_machine.specs.Tables.{AgreesWith, place_in};
ghost use Rattle.df_purge.specs.code.Left.{emitted_noted};
ghost use Rattle.df_rules.specs.Commits.{commit_in};
ghost use Rattle.df_start.specs.declared.start.RootStart.{RootStart};
ghost use Rattle.df_unit.specs.declared.entry.Noted.{Noted};
ghost use Rattle.df_unit.specs.declared.name.UnitName.{UnitName};
ghost use Rattle.df_journal_text.specs.Entry.{noted_text};
ghost use Rattle.df_journal_text.specs.Fits.{IsReply};
ghost use Rattle.df_spelled.specs.Spelled.{IsOutput};
ghost use Rattle.df_tables.specs.Hand.{received_answer};
ghost use Rattle.df_audit.specs.Made.{EntersNoted};
ghost use Rattle.df_audit.specs.code.Calling.{IsReadCall, Keeps, label_in, read_call, shown_by, stays_in};
ghost use Rattle.df_audit.specs.code.Passing.{IsSoFar, TakesOne};

use crate::brief::accepted_is_spelled;
use crate::made::{Hears, append_call, append_common};
use crate::pass::{Made, Wanted};
use df_journal_file::JournalCursor;
use df_journal_text::{Ask, Notes, write_entry};
use df_label::Label;
use df_local::Accepted;
use df_machine::{Received, Tables};
use df_memory::NoMemory;
use df_part::Part;
use df_purge::shown_of;
use df_spelled::{
    contamination_is_spelled, effect_is_spelled, event_reply_is_spelled, given_is_spelled,
    reply_is_spelled, seen_is_spelled,
};
use df_unit::{Call, Commit, Effect, Entry, Reply};
use std::alloc::Global;

/// Tables, and what is noted of their rows.
#[derive(Drop)]
pub struct NotedTables {
    pub tables: Tables,
    pub notes: Notes,
}

/// What a get tells, and what it hands out, have a spelling. It has no commit.
fn received_is_spelled(received: &Received)
    ensures reply { IsReply (received_answer received.now).0 }
    ensures effect { IsOutput (received_answer received.now).1 }
    ensures commit { commit_in (received_answer received.now).1 ≡ None }
{
    match received {
        Received::Event { h, given } => {
            event_reply_is_spelled(*h, given.sub);
            given_is_spelled(given);
        }
        Received::Nothing | Received::TooManyHandles => (),
    }
}

/// What a label shows of the commit of an effect.
#[inline(never)]
fn shown_by(alloc: Global, label: &Label, effect: &Effect) -> Result<Option<Box<Commit>>, NoMemory>
    ensures { IfOk result (λ shown. option_map (λ b. b.value) shown
        ≡ shown_by (Some label.now) (commit_in effect.now)) }
{
    let Effect::Commit(commit) = effect else {
        return Ok(None);
    };
    match shown_of(alloc, label, commit)? {
        Some(shown) => Ok(Some(Box::new(alloc, shown)?)),
        None => Ok(None),
    }
}

/// Keeps what a label shows of the commit of the call that it was told of last.
#[derive(Drop)]
struct Shown<'a> {
    alloc: Global,
    /// None where nothing is to be kept.
    label: Option<&'a Label>,
    commit: Option<Box<Commit>>,
}

impl Shown<'_> {
    /// The call made no commit.
    fn hear_none(&mut self)
        ensures { option_map (λ b. b.value) self.new.commit
            ≡ shown_by (option_copied self.old.label) None }
    {
        if self.commit.is_some() {
            self.commit = None;
        }
    }
}

impl Hears for Shown<'_> {
    ghost use Rattle.df_audit.specs.code.Calling.{Keeps};
    ghost use Rattle.std.specs.Prelude.{option_map};

    ghost heard = { λ old new answer. Keeps (option_copied old.label)
        (option_map (λ b. b.value) new.commit) answer };

    fn hear(&mut self, reply: &Reply, effect: &Effect) -> Result<(), NoMemory> {
        reply_is_spelled(reply);
        effect_is_spelled(effect);
        match self.label {
            Some(label) => self.commit = shown_by(self.alloc, label, effect)?,
            None => self.hear_none(),
        }
        Ok(())
    }

    fn hear_quiet(&mut self, reply: &Reply) {
        reply_is_spelled(reply);
        self.hear_none();
    }

    fn hear_accepted(&mut self, accepted: Accepted) {
        accepted_is_spelled(accepted);
        self.hear_none();
    }

    fn hear_seen(&mut self, part: &Part) {
        seen_is_spelled(part);
        self.hear_none();
    }

    fn hear_received(&mut self, received: &Received) {
        received_is_spelled(received);
        self.hear_none();
    }
}

/// A call that was read: a common one, or any.
#[derive(Clone, Copy)]
pub enum ReadCall<'a> {
    Common(Ask),
    Any(&'a Call),
}

/// Makes the call of the unit at a place that was read, and appends the lines of its entry.
fn append_read(
    behind: &mut NotedTables,
    place: Option<usize>,
    words: &[u8],
    call: ReadCall<'_>,
    text: &mut Vec<u8>,
    to: &mut Shown<'_>,
) -> Result<(), NoMemory>
    requires state { (core : State) × AgreesWith core behind.old.tables }
    requires seated { (actor : UnitName) × (place ≡ place_in behind.old.tables actor) }
    ensures { OnOk result (EntersNoted place words.now (read_call call.entry)
        (Keeps (option_copied to.old.label) (option_map (λ b. b.value) to.new.commit)) behind.old.tables behind.new.tables
        text.old.items text.new.items) }
{
    let NotedTables { tables, notes } = behind;
    match call {
        ReadCall::Common(ask) => append_common(tables, notes, place, words, ask, text, to),
        ReadCall::Any(call) => append_call(tables, notes, place, words, call, text, to),
    }
}

/// Whether the whole entry of a call of a unit with this contamination is wanted.
fn stays(wanted: &Wanted<'_>, contamination: Option<&Label>) -> bool
    ensures { result ≡ stays_in wanted.now (option_copied contamination.entry) }
{
    match (wanted, contamination) {
        (Wanted::Notes, _) => true,
        (Wanted::Purge(label), Some(contamination)) => contamination.flows_to(label),
        _ => false,
    }
}

/// The label by which a purge is wanted, where a call's entry doesn't stay whole.
fn label_left<'a>(wanted: &Wanted<'a>, stays: bool) -> Option<&'a Label>
    ensures { stays ≡ false → option_copied result ≡ label_in wanted.now }
{
    match wanted {
        Wanted::Purge(label) if !stays => Some(label),
        _ => None,
    }
}

/// Appends a commit, as an emitted entry.
#[inline(never)]
fn append_emitted(commit: Commit, to: &mut Vec<u8>) -> Result<(), NoMemory>
    ensures { OnOk result (to.new.items ≡ to.old.items
        ++ flat_map noted_text (emitted_noted (Some commit))) }
{
    let emitted = Entry::Emitted(commit);
    let written = write_entry(&emitted, to);
    drop(emitted);
    written
}

/// Appends what is shown of a commit, as an emitted entry.
fn append_shown(shown: Option<Box<Commit>>, to: &mut Vec<u8>) -> Result<(), NoMemory>
    ensures { OnOk result (to.new.items ≡ to.old.items
        ++ flat_map noted_text (emitted_noted (option_map (λ b. b.value) shown))) }
{
    match shown {
        Some(commit) => append_emitted(Box::into_inner(commit), to),
        None => Ok(()),
    }
}

/// Leaves of the lines of an entry, which stand in a text from a place on, what is wanted of it: all,
/// or what is shown of its commit.
fn leave(
    stays: bool,
    shown: Option<Box<Commit>>,
    before: usize,
    text: &mut Vec<u8>,
) -> Result<(), NoMemory>
    ensures whole { OnOk result (stays ≡ true → text.new.items ≡ text.old.items) }
    ensures left { OnOk result (stays ≡ false → text.new.items ≡ take before text.old.items
        ++ flat_map noted_text (emitted_noted (option_map (λ b. b.value) shown))) }
{
    if stays {
        return Ok(());
    }
    text.truncate(before);
    append_shown(shown, text)
}

/// What stands in a text from a place on.
fn lines_from(text: &[u8], before: usize) -> &[u8]
    requires { before ≤ length text.now }
    ensures { result.now ≡ drop before text.now }
{
    &text[before..]
}

/// Makes the call that was read. Where the lines of its entry are the next, it is taken in, and
/// what is wanted of it is appended. Else this isn't the end.
pub fn take_call(
    cursor: &mut JournalCursor<'_>,
    behind: &mut NotedTables,
    wanted: &Wanted<'_>,
    place: Option<usize>,
    words: &[u8],
    call: ReadCall<'_>,
    made: &mut Made,
) -> Result<Option<bool>, NoMemory>
    requires heard { (roots : List RootStart) × (bytes : List ℕ) × (read : List Noted)
        × (actor : UnitName) × IsSoFar wanted.now roots bytes read cursor.old behind.old.tables
        made.old.count made.old.text.items
        × IsReadCall behind.old.tables place actor (read_call call) words.now
        × (cursor.old.has_notes ≡ true) }
    ensures { IfOk result (λ ended. (roots : List RootStart) (bytes : List ℕ) (read : List Noted)
        (actor : UnitName) → IsSoFar wanted.now roots bytes read cursor.old behind.old.tables
        made.old.count made.old.text.items →
        IsReadCall behind.old.tables place actor (read_call call.entry) words.now →
        cursor.old.has_notes ≡ true →
        TakesOne wanted.now roots bytes read cursor.old ended cursor.new behind.new.tables
        made.new.count made.new.text.items) }
{
    let before = made.text.len();
    let contamination = behind.tables.contamination(place);
    contamination_is_spelled(contamination);
    let stays = stays(wanted, contamination);
    let mut shown = Shown {
        alloc: *made.text.allocator(),
        label: label_left(wanted, stays),
        commit: None,
    };
    append_read(behind, place, words, call, &mut made.text, &mut shown)?;
    if !cursor.pass(lines_from(made.text.as_slice(), before)) {
        return Ok(Some(false));
    }
    made.count += 1;
    leave(stays, shown.commit, before, &mut made.text)?;
    Ok(None)
}
