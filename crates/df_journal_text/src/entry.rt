ghost use Rattle.std.specs.Prelude.{◌≡◌, ◌<◌, ◌++◌, ◌∷◌, [], OnOk, Some, codes};
ghost use Rattle.df_unit.specs.Drafts.{show};
ghost use Rattle.df_unit.specs.declared.call.Call.{Call};
ghost use Rattle.df_unit.specs.declared.entry.Effect.{Effect};
ghost use Rattle.df_unit.specs.declared.entry.Entry.TheVariants.{Done};
ghost use Rattle.df_unit.specs.declared.name.UnitName.{UnitName};
ghost use Rattle.df_unit.specs.declared.reply.Reply.TheVariants as Reply;
ghost use Rattle.df_unit.specs.declared.reply.Reply.TheVariants.{Event, Handle, Parts};
ghost use Rattle.df_journal_text.specs.Entry.{edit_text, effect_text, entry_text, note_text, reads_text};
ghost use Rattle.df_journal_text.specs.Front.{call_front};
ghost use Rattle.df_journal_text.specs.Line.{line};
ghost use Rattle.df_journal_text.specs.Name.{event_text};
ghost use Rattle.df_journal_text.specs.code.Outcome.{answer_text, outcome_text};

use crate::call::append_call;
use crate::effect::{
    append_edit, append_effect, append_event_line, append_given, append_reads, append_seen,
};
use crate::line::{append_label_word, append_number_word, append_word, put_all};
use crate::name::append_unit;
use crate::note::Note;
use crate::reply::append_reply;
use df_label::Label;
use df_memory::NoMemory;
use df_part::Part;
use df_unit::{Commit, Effect, Entry, Given, Reply};
use df_value_text::{append_number, put_few};

/// Appends a handle behind the words of its call, and ends the line.
#[inline(always)]
fn append_handle(h: u32, to: &mut Vec<u8>) -> Result<(), NoMemory>
    ensures { OnOk result (to.new.items ≡ to.old.items ++ answer_text (Handle h)) }
{
    to.reserve(16)?;
    put_all(b" -> handle ", to);
    if h >= 10_000 {
        append_number(u64::from(h), to)?;
        to.push(b'\n')?;
        return Ok(());
    }
    put_few(h, to);
    to.push_reserved(b'\n');
    Ok(())
}

/// Appends a view of an event behind the words of its call, and ends the line.
#[inline(always)]
fn append_event(h: u32, sub: u32, to: &mut Vec<u8>) -> Result<(), NoMemory>
    ensures { OnOk result (to.new.items ≡ to.old.items ++ answer_text (Event h sub)) }
{
    to.reserve(20)?;
    put_all(b" -> event ", to);
    if h >= 10_000 || sub >= 10_000 {
        append_number(u64::from(h), to)?;
        append_number_word(u64::from(sub), to)?;
        to.push(b'\n')?;
        return Ok(());
    }
    put_few(h, to);
    to.push_reserved(b' ');
    put_few(sub, to);
    to.push_reserved(b'\n');
    Ok(())
}

/// Appends a reply behind the words of its call, and ends the line.
fn append_told(reply: &Reply, to: &mut Vec<u8>) -> Result<(), NoMemory>
    ensures { OnOk result (to.new.items ≡ to.old.items ++ answer_text reply.now) }
{
    append_word(b"->", to)?;
    append_reply(reply, to)?;
    to.push(b'\n')?;
    Ok(())
}

/// Appends the reply of a call behind its words, and ends the line. The commonest are written at
/// once.
fn append_answer(reply: &Reply, to: &mut Vec<u8>) -> Result<(), NoMemory>
    ensures { OnOk result (to.new.items ≡ to.old.items ++ answer_text reply.now) }
{
    match reply {
        Reply::Handle(h) => append_handle(*h, to),
        Reply::Event { h, sub } => append_event(*h, *sub, to),
        Reply::Parts(_) => {
            to.extend_from_slice(b" -> parts\n")?;
            Ok(())
        }
        _ => append_told(reply, to),
    }
}

/// Appends a handle behind the words of its call, and the line of a note.
#[inline(always)]
fn append_noted_handle(h: u32, note: &Note, to: &mut Vec<u8>) -> Result<(), NoMemory>
    ensures { OnOk result (to.new.items ≡ to.old.items
        ++ (answer_text (Handle h) ++ note_text note.now)) }
{
    if h == 0 {
        to.extend_from_slice(note.behind_first())?;
        return Ok(());
    }
    append_handle(h, to)?;
    to.extend_from_slice(note.as_bytes())?;
    Ok(())
}

/// Appends a view of an event behind the words of its call, and the line of a note.
#[inline(always)]
fn append_noted_event(h: u32, sub: u32, note: &Note, to: &mut Vec<u8>) -> Result<(), NoMemory>
    ensures { OnOk result (to.new.items ≡ to.old.items
        ++ (answer_text (Event h sub) ++ note_text note.now)) }
{
    if h == 0 && sub == 0 {
        to.extend_from_slice(note.behind_view())?;
        return Ok(());
    }
    append_event(h, sub, to)?;
    to.extend_from_slice(note.as_bytes())?;
    Ok(())
}

/// Appends the reply of a call behind its words, and the line of a note. The commonest are written
/// at once.
#[inline(always)]
fn append_noted(reply: &Reply, note: &Note, to: &mut Vec<u8>) -> Result<(), NoMemory>
    ensures { OnOk result (to.new.items ≡ to.old.items
        ++ (answer_text reply.now ++ note_text note.now)) }
{
    match reply {
        Reply::Ok => {
            to.extend_from_slice(note.behind_ok())?;
            Ok(())
        }
        Reply::Handle(h) => append_noted_handle(*h, note, to),
        Reply::Parts(_) => {
            to.extend_from_slice(note.behind_parts())?;
            Ok(())
        }
        Reply::Event { h, sub } => append_noted_event(*h, *sub, note, to),
        _ => {
            append_answer(reply, to)?;
            to.extend_from_slice(note.as_bytes())?;
            Ok(())
        }
    }
}

/// Appends the line of a contamination.
pub(crate) fn append_contamination(label: &Label, to: &mut Vec<u8>) -> Result<(), NoMemory>
    ensures { OnOk result (to.new.items ≡ to.old.items ++ note_text (Some label.now)) }
{
    to.push(b'@')?;
    append_label_word(label, to)?;
    to.push(b'\n')?;
    Ok(())
}

/// Appends the line of a contamination, where one is noted.
fn append_note(note: &Option<Label>, to: &mut Vec<u8>) -> Result<(), NoMemory>
    ensures { OnOk result (to.new.items ≡ to.old.items ++ note_text note.now) }
{
    match note {
        Some(label) => append_contamination(label, to),
        None => Ok(()),
    }
}

/// Appends the lines of what a read shows.
#[inline(always)]
fn append_reply_reads(reply: &Reply, to: &mut Vec<u8>) -> Result<(), NoMemory>
    ensures { OnOk result (to.new.items ≡ to.old.items ++ reads_text reply.now) }
{
    match reply {
        Reply::Parts(parts) => append_reads(parts.as_slice(), to),
        _ => Ok(()),
    }
}

fn append_emitted(commit: &Commit, to: &mut Vec<u8>) -> Result<(), NoMemory>
    ensures { OnOk result (to.new.items ≡ to.old.items
        ++ (line (codes "emitted") (event_text commit.now.event ∷ [])
        ++ edit_text commit.now.edit)) }
{
    to.extend_from_slice(b"emitted")?;
    append_event_line(&commit.event, to)?;
    append_edit(&commit.edit, to)?;
    Ok(())
}

/// Appends the lines of what a call showed and did.
fn append_shown(reply: &Reply, effect: &Effect, to: &mut Vec<u8>) -> Result<(), NoMemory>
    ensures { OnOk result (to.new.items ≡ to.old.items
        ++ (reads_text reply.now ++ effect_text effect.now)) }
{
    append_reply_reads(reply, to)?;
    append_effect(effect, to)?;
    Ok(())
}

/// Appends what stands behind the words of a call.
fn append_outcome(
    reply: &Reply,
    effect: &Effect,
    contamination: &Option<Label>,
    to: &mut Vec<u8>,
) -> Result<(), NoMemory>
    ensures { OnOk result (to.new.items ≡ to.old.items
        ++ outcome_text contamination.now reply.now effect.now) }
{
    append_answer(reply, to)?;
    append_note(contamination, to)?;
    append_shown(reply, effect, to)?;
    Ok(())
}

/// Appends the lines of an entry, with its actor's contamination where that is noted.
pub fn append_entry(
    entry: &Entry,
    contamination: &Option<Label>,
    to: &mut Vec<u8>,
) -> Result<(), NoMemory>
    ensures { OnOk result (to.new.items ≡ to.old.items ++ entry_text contamination.now entry.now) }
{
    match entry {
        Entry::Done {
            actor,
            call,
            reply,
            effect,
        } => {
            append_unit(actor, to)?;
            append_call(call, to)?;
            append_outcome(reply, effect, contamination, to)?;
            Ok(())
        }
        Entry::Emitted(commit) => append_emitted(commit, to),
    }
}

/// Appends the lines of the entry of a call that has no effect, as `append_spelled` does. Without
/// memory a part of the lines may have been appended.
pub fn append_quiet(
    front: &[u8],
    reply: &Reply,
    note: &Note,
    to: &mut Vec<u8>,
) -> Result<(), NoMemory>
    ensures { (actor : UnitName) (call : Call) → front.now ≡ call_front actor call →
        OnOk result (to.new.items ≡ to.old.items
        ++ entry_text note.now (Done actor call reply.now Effect.Nothing)) }
{
    to.extend_from_slice(front)?;
    append_noted(reply, note, to)?;
    append_reply_reads(reply, to)
}

/// Appends the lines of the entry of a call that is spelled already, with its actor's contamination
/// where that is noted: its unit and words are these bytes, and aren't spelled again, and neither is
/// the note. Without memory a part of the lines may have been appended.
pub fn append_spelled(
    front: &[u8],
    reply: &Reply,
    effect: &Effect,
    note: &Note,
    to: &mut Vec<u8>,
) -> Result<(), NoMemory>
    ensures { (actor : UnitName) (call : Call) → front.now ≡ call_front actor call →
        OnOk result (to.new.items ≡ to.old.items
        ++ entry_text note.now (Done actor call reply.now effect.now)) }
{
    to.extend_from_slice(front)?;
    append_noted(reply, note, to)?;
    append_shown(reply, effect, to)
}

/// Appends the lines of the entry of a call that is told a handle and has no effect, as
/// `append_spelled` does. Without memory a part of the lines may have been appended.
pub fn append_handled(front: &[u8], h: u32, note: &Note, to: &mut Vec<u8>) -> Result<(), NoMemory>
    ensures { (actor : UnitName) (call : Call) → front.now ≡ call_front actor call →
        OnOk result (to.new.items ≡ to.old.items
        ++ entry_text note.now (Done actor call (Handle h) Effect.Nothing)) }
{
    to.extend_from_slice(front)?;
    append_noted_handle(h, note, to)?;
    Ok(())
}

/// Appends the lines of the entry of a call that is told `ok` and has no effect, as
/// `append_spelled` does. Without memory a part of the lines may have been appended.
pub fn append_done(front: &[u8], note: &Note, to: &mut Vec<u8>) -> Result<(), NoMemory>
    ensures { (actor : UnitName) (call : Call) → front.now ≡ call_front actor call →
        OnOk result (to.new.items ≡ to.old.items
        ++ entry_text note.now (Done actor call Reply.Ok Effect.Nothing)) }
{
    to.extend_from_slice(front)?;
    to.extend_from_slice(note.behind_ok())?;
    Ok(())
}

/// Appends the lines of the entry of a read that shows this part alone, as `append_spelled` does.
/// Without memory a part of the lines may have been appended.
pub fn append_seen_alone(
    front: &[u8],
    part: &Part,
    note: &Note,
    to: &mut Vec<u8>,
) -> Result<(), NoMemory>
    ensures { (actor : UnitName) (call : Call) → front.now ≡ call_front actor call →
        OnOk result (to.new.items ≡ to.old.items
        ++ entry_text note.now (Done actor call (Parts (show part.now ∷ [])) Effect.Nothing)) }
{
    to.extend_from_slice(front)?;
    to.extend_from_slice(note.behind_parts())?;
    append_seen(part, to)
}

/// Appends the lines of the entry of a get that is told a handle and an event, as `append_spelled`
/// does. Without memory a part of the lines may have been appended.
pub fn append_received(
    front: &[u8],
    h: u32,
    given: &Given,
    note: &Note,
    to: &mut Vec<u8>,
) -> Result<(), NoMemory>
    ensures { (actor : UnitName) (call : Call) → front.now ≡ call_front actor call →
        OnOk result (to.new.items ≡ to.old.items
        ++ entry_text note.now (Done actor call (Event h given.now.sub) (Effect.Given given.now))) }
{
    to.extend_from_slice(front)?;
    append_noted_event(h, given.sub, note, to)?;
    append_given(given, to)
}
