//! Entries at a place, with the lines below them.
ghost use Rattle.std.specs.Prelude.{◌≤◌, ◌<◌, ◌↔◌, Bool, IfErr, IfOk, IsTrue, drop, length};
ghost use Rattle.df_journal_text.specs.Entry.{edit_text, effect_text, given_text, note_text, noted_text, reads_text};
ghost use Rattle.df_journal_text.specs.Fits.{IsAnswer};
ghost use Rattle.df_journal_file.specs.Journal.{EditsSome, EndsFile};
ghost use Rattle.df_journal_file.specs.code.Entries.{IsGivenFor, IsNoteBy, IsShownBy, IsSomeCommit, IsSomeEdit, IsSomeEffectOf, IsWholeBy, commit_lines};
ghost use Rattle.df_journal_file.specs.code.Languages.{CommitFrom, EditFrom, EffectFrom, EntriesFrom, HandedFrom, NoteFrom, NotesNone, ShownFrom};
ghost use Rattle.df_journal_file.specs.code.Marks.{IsCommitMark, IsHandedAt, IsUnitHere};
ghost use Rattle.df_journal_file.specs.code.Places.{IsHere};
ghost use Rattle.df_journal_file.specs.code.Stops.{Onto, StopsIn};

use crate::place::{lines_at, mark_stands, told_at};
use df_label::Label;
use df_lines::FileFault;
use df_part::{Edit, Parts};
use df_unit::{Commit, Effect, Entry, Given, Noted, PartsRead, Reply};
use df_value_text::byte_stands;
use std::alloc::Global;

/// Whether the edit deletes or adds.
fn edits_some(edit: &Edit) -> bool
    ensures { IsTrue result ↔ EditsSome edit.now }
{
    !edit.deleted().is_empty() || !edit.added().is_empty()
}

/// What a commit deletes and adds from the place on, and the place behind it.
fn edit_at(alloc: Global, bytes: &[u8], at: usize) -> Result<(Edit, usize), FileFault>
    requires { at ≤ length bytes.now }
    ensures read { IfOk result (λ r. IsHere edit_text IsSomeEdit bytes.now at r.0 r.1) }
    ensures onto { (has : Bool) → IfOk result (λ r.
        Onto (EditFrom has 0) bytes.now at (EntriesFrom has) r.1) }
    ensures stops { (has : Bool) → IfErr result (StopsIn (EditFrom has 0) bytes.now at) }
{
    let (deleted, behind) = lines_at(alloc, bytes, at, b'-')?;
    let (added, end) = lines_at(alloc, bytes, behind, b'+')?;
    let edit = Edit::new(deleted, added);
    if !edits_some(&edit) {
        return Err(FileFault::Bad(at));
    }
    Ok((edit, end))
}

/// The commit whose first line stands at the place, behind the mark.
fn commit_at(
    alloc: Global,
    bytes: &[u8],
    at: usize,
    mark: &[u8],
) -> Result<(Commit, usize), FileFault>
    requires { at ≤ length bytes.now }
    ensures read { IfOk result (λ r.
        IsHere (commit_lines mark.now) IsSomeCommit bytes.now at r.0 r.1) }
    ensures onward { IfOk result (λ r. at < r.1) }
    ensures onto { (has : Bool) → IsCommitMark mark.now → IfOk result (λ r.
        Onto (CommitFrom has mark.now) bytes.now at (EntriesFrom has) r.1) }
    ensures stops { (has : Bool) → IsCommitMark mark.now
        → IfErr result (StopsIn (CommitFrom has mark.now) bytes.now at) }
{
    let (event, behind) = told_at(alloc, bytes, at, mark)?;
    let (edit, end) = edit_at(alloc, bytes, behind)?;
    Ok((Commit { event, edit }, end))
}

/// The event at the place that is handed over for the subscription.
fn given_at(alloc: Global, bytes: &[u8], at: usize, sub: u32) -> Result<(Given, usize), FileFault>
    requires { at ≤ length bytes.now }
    ensures read { IfOk result (λ r. IsHere given_text (IsGivenFor sub) bytes.now at r.0 r.1) }
    ensures onto { (has : Bool) → IfOk result (λ r.
        Onto (HandedFrom has) bytes.now at (EntriesFrom has) r.1) }
    ensures stops { (has : Bool) → IfErr result (StopsIn (HandedFrom has) bytes.now at) }
{
    let (event, behind) = told_at(alloc, bytes, at, b"<")?;
    if !mark_stands(bytes, behind, b'.') {
        return Err(FileFault::Bad(behind));
    }
    let (parts, end) = lines_at(alloc, bytes, behind, b'.')?;
    let parts = Parts::new(parts);
    Ok((Given { event, sub, parts }, end))
}

/// The subscription for which the reply hands an event over, where that stands at the place.
fn handed_sub(bytes: &[u8], at: usize, reply: &Reply) -> Option<u32>
    requires { at ≤ length bytes.now }
    ensures { IsHandedAt (drop at bytes.now) reply.now result }
{
    match reply {
        Reply::Event { sub, .. } => {
            if mark_stands(bytes, at, b'<') {
                Some(*sub)
            } else {
                None
            }
        }
        _ => None,
    }
}

/// The effect at the place of a call with this reply.
fn effect_at(
    alloc: Global,
    bytes: &[u8],
    at: usize,
    reply: &Reply,
) -> Result<(Effect, usize), FileFault>
    requires { at ≤ length bytes.now }
    ensures read { IfOk result (λ r.
        IsHere effect_text (IsSomeEffectOf reply.now) bytes.now at r.0 r.1) }
    ensures onto { (has : Bool) → IfOk result (λ r.
        Onto (EffectFrom has reply.now) bytes.now at (EntriesFrom has) r.1) }
    ensures stops { (has : Bool) → IfErr result (StopsIn (EffectFrom has reply.now) bytes.now at) }
{
    if mark_stands(bytes, at, b'=') {
        let (commit, end) = commit_at(alloc, bytes, at, b"=")?;
        return Ok((Effect::Commit(commit), end));
    }
    let Some(sub) = handed_sub(bytes, at, reply) else {
        return Ok((Effect::Nothing, at));
    };
    let (given, end) = given_at(alloc, bytes, at, sub)?;
    Ok((Effect::Given(given), end))
}

/// Whether nothing is noted of a call with this reply.
fn notes_none(has_notes: bool, reply: &Reply) -> bool
    ensures { IsTrue result ↔ NotesNone has_notes reply.now }
{
    !has_notes || matches!(reply, Reply::NoSuchUnit)
}

/// The contamination that is noted at the place, where notes stand and the unit exists.
fn contamination_at(
    alloc: Global,
    bytes: &[u8],
    at: usize,
    has_notes: bool,
    reply: &Reply,
) -> Result<(Option<Label>, usize), FileFault>
    requires inside { at ≤ length bytes.now }
    requires bare { IsAnswer reply.now }
    ensures read { IfOk result (λ r.
        IsHere note_text (IsNoteBy has_notes reply.now) bytes.now at r.0 r.1) }
    ensures onto { IfOk result (λ r. Onto (NoteFrom has_notes reply.now) bytes.now at
        (ShownFrom has_notes reply.now) r.1) }
    ensures stops { IfErr result (StopsIn (NoteFrom has_notes reply.now) bytes.now at) }
{
    if notes_none(has_notes, reply) {
        return Ok((None, at));
    }
    let (label, end) = told_at(alloc, bytes, at, b"@")?;
    Ok((Some(label), end))
}

/// The reply with what a read shows at the place.
fn reply_at(
    alloc: Global,
    bytes: &[u8],
    at: usize,
    reply: Reply,
) -> Result<(Reply, usize), FileFault>
    requires inside { at ≤ length bytes.now }
    requires bare { IsAnswer reply }
    ensures read { IfOk result (λ r. IsHere reads_text (IsShownBy reply) bytes.now at r.0 r.1) }
    ensures onto { (has : Bool) → IfOk result (λ r.
        Onto (ShownFrom has reply) bytes.now at (EffectFrom has r.0) r.1) }
    ensures stops { (has : Bool) → IfErr result (StopsIn (ShownFrom has reply) bytes.now at) }
{
    match reply {
        Reply::Parts(_) => {
            if !mark_stands(bytes, at, b':') {
                return Err(FileFault::Bad(at));
            }
            let (parts, end) = lines_at(alloc, bytes, at, b':')?;
            Ok((Reply::Parts(PartsRead::new(parts)), end))
        }
        reply => Ok((reply, at)),
    }
}

/// The entry of a unit at the place.
fn done_at(
    alloc: Global,
    bytes: &[u8],
    at: usize,
    has_notes: bool,
) -> Result<(Noted, usize), FileFault>
    requires { at ≤ length bytes.now }
    ensures read { IfOk result (λ r.
        IsHere noted_text (IsWholeBy has_notes) bytes.now at r.0 r.1) }
    ensures onward { IfOk result (λ r. at < r.1) }
    ensures onto { IfOk result (λ r.
        Onto (EntriesFrom has_notes) bytes.now at (EntriesFrom has_notes) r.1) }
    ensures stops { IsUnitHere (drop at bytes.now)
        → IfErr result (StopsIn (EntriesFrom has_notes) bytes.now at) }
{
    let ((actor, call, reply), note) = told_at(alloc, bytes, at, b"")?;
    let (contamination, shown) = contamination_at(alloc, bytes, note, has_notes, &reply)?;
    let (reply, change) = reply_at(alloc, bytes, shown, reply)?;
    let (effect, end) = effect_at(alloc, bytes, change, &reply)?;
    let entry = Entry::Done {
        actor,
        call,
        reply,
        effect,
    };
    Ok((
        Noted {
            entry,
            contamination,
        },
        end,
    ))
}

/// The entry at the place, and the place behind it.
pub fn entry_at(
    alloc: Global,
    bytes: &[u8],
    at: usize,
    has_notes: bool,
) -> Result<(Noted, usize), FileFault>
    requires { at ≤ length bytes.now }
    ensures read { IfOk result (λ r.
        IsHere noted_text (IsWholeBy has_notes) bytes.now at r.0 r.1) }
    ensures onward { IfOk result (λ r. at < r.1) }
    ensures onto { IfOk result (λ r.
        Onto (EntriesFrom has_notes) bytes.now at (EntriesFrom has_notes) r.1) }
    ensures stops { ¬ EndsFile (drop at bytes.now)
        → IfErr result (StopsIn (EntriesFrom has_notes) bytes.now at) }
{
    if !byte_stands(bytes, at, b'e') {
        return done_at(alloc, bytes, at, has_notes);
    }
    let (commit, end) = commit_at(alloc, bytes, at, b"emitted")?;
    let entry = Entry::Emitted(commit);
    Ok((
        Noted {
            entry,
            contamination: None,
        },
        end,
    ))
}
