//! Calls of units are made, and their entries' lines are spelled behind the words of the calls. A
//! listener hears how each was answered.
ghost use Rattle.std.specs.Prelude.{◌≡◌, ◌++◌, IfSome, OnOk};
ghost use Rattle.df_journal_text.specs.Ask.{asked};
ghost use Rattle.df_journal_text.specs.Entry.{entry_text};
ghost use Rattle.df_journal_text.specs.Front.{call_front};
ghost use Rattle.df_local.specs.Brief.{accepted_reply, brief_call};
ghost use Rattle.df_local.specs.Locally.{closing, shows_one};
ghost use Rattle.df_machine.specs.Journal.{State};
ghost use Rattle.df_machine.specs.Tables.{AgreesWith, place_in};
ghost use Rattle.df_tables.specs.Hand.{received_answer};
ghost use Rattle.df_unit.specs.declared.call.Call.{Call};
ghost use Rattle.df_unit.specs.declared.call.Call.TheVariants.{Get};
ghost use Rattle.df_unit.specs.declared.entry.Effect.{Effect};
ghost use Rattle.df_unit.specs.declared.entry.Effect.TheVariants.{Nothing};
ghost use Rattle.df_unit.specs.declared.entry.Entry.TheVariants.{Done};
ghost use Rattle.df_unit.specs.declared.name.UnitName.{UnitName};
ghost use Rattle.df_unit.specs.declared.reply.Reply.{Reply};
ghost use Rattle.df_audit.specs.Made.{Enters, EntersNoted};

use crate::brief::{append_accepted, brief_of};
use df_journal_text::{
    Ask, Note, Notes, append_quiet, append_received, append_seen_alone, append_spelled,
};
use df_local::{Accepted, Brief, Close};
use df_machine::{Received, Tables};
use df_memory::NoMemory;
use df_part::Part;
use df_unit::{Call, Effect, Reply};

/// Is told how a call was answered.
pub trait Hears {
    /// What it is then, and what it was, agree with this answer.
    ghost heard: { Self → Self → Reply × Effect → Type 0 };

    /// The call was answered so.
    fn hear(&mut self, reply: &Reply, effect: &Effect) -> Result<(), NoMemory>
        ensures { OnOk result (heard self.old self.new (reply.now, effect.now)) };

    /// The call was answered so, and had no effect.
    fn hear_quiet(&mut self, reply: &Reply)
        ensures { heard self.old self.new (reply.now, Nothing) };

    /// The call created an event or dropped one.
    fn hear_accepted(&mut self, accepted: Accepted)
        ensures { heard self.old self.new (accepted_reply accepted, Nothing) };

    /// The call was a read, which showed this part alone.
    fn hear_seen(&mut self, part: &Part)
        ensures { heard self.old self.new (shows_one part.now, Nothing) };

    /// The call was a get, by which this was received.
    fn hear_received(&mut self, received: &Received)
        ensures { heard self.old self.new (received_answer received.now) };
}

/// Heeds nothing that it is told.
#[derive(Drop)]
pub struct Heedless;

impl Hears for Heedless {
    ghost heard = { λ _ _ _. Unit };

    fn hear(&mut self, reply: &Reply, effect: &Effect) -> Result<(), NoMemory> {
        let _ = reply;
        let _ = effect;
        Ok(())
    }

    fn hear_quiet(&mut self, reply: &Reply) {
        let _ = reply;
    }

    fn hear_accepted(&mut self, accepted: Accepted) {
        let _ = accepted;
    }

    fn hear_seen(&mut self, part: &Part) {
        let _ = part;
    }

    fn hear_received(&mut self, received: &Received) {
        let _ = received;
    }
}

/// The common call that a call is, where such a call is made in a way of its own.
fn ask_of(call: &Call) -> Option<Ask>
    ensures { IfSome result (λ ask. asked ask ≡ call.now) }
{
    match call {
        Call::Get => Some(Ask::Get),
        Call::Publish { h } => Some(Ask::Publish { h: *h }),
        Call::Release { h } => Some(Ask::Release { h: *h }),
        _ => None,
    }
}

/// Appends the entry of a call that was answered so, with this note, and lets it be heard.
#[inline(always)]
fn append_heard<H: Hears>(
    words: &[u8],
    reply: &Reply,
    effect: &Effect,
    note: &Note,
    text: &mut Vec<u8>,
    to: &mut H,
) -> Result<(), NoMemory>
    ensures { OnOk result (H.heard to.old to.new (reply.now, effect.now)
        × ((actor : UnitName) (call : Call) → words.now ≡ call_front actor call → text.new.items
        ≡ text.old.items ++ entry_text note.now (Done actor call reply.now effect.now))) }
{
    append_spelled(words, reply, effect, note, text)?;
    to.hear(reply, effect)
}

/// Makes a call of the unit at a place that isn't known to be one of its own state alone, and
/// appends its entry with this note.
#[inline(never)]
fn append_answered<H: Hears>(
    tables: &mut Tables,
    place: Option<usize>,
    note: &Note,
    words: &[u8],
    call: &Call,
    text: &mut Vec<u8>,
    to: &mut H,
) -> Result<(), NoMemory>
    requires state { (core : State) × AgreesWith core tables.old }
    requires seated { (actor : UnitName) × (place ≡ place_in tables.old actor) }
    ensures { OnOk result (Enters place words.now call.now note.now (H.heard to.old to.new)
        tables.old tables.new text.old.items text.new.items) }
{
    let answer = tables.step_other(place, call)?;
    let appended = append_heard(words, &answer.reply, &answer.effect, note, text, to);
    drop(answer);
    appended
}

/// Makes a common call of the unit at a place in the way of any other, and appends its entry with
/// this note.
#[inline(never)]
fn append_as_any<H: Hears>(
    tables: &mut Tables,
    place: Option<usize>,
    note: &Note,
    words: &[u8],
    ask: Ask,
    text: &mut Vec<u8>,
    to: &mut H,
) -> Result<(), NoMemory>
    requires state { (core : State) × AgreesWith core tables.old }
    requires seated { (actor : UnitName) × (place ≡ place_in tables.old actor) }
    ensures { OnOk result (Enters place words.now (asked ask) note.now (H.heard to.old to.new)
        tables.old tables.new text.old.items text.new.items) }
{
    let call = ask.call();
    let appended = append_answered(tables, place, note, words, &call, text, to);
    drop(call);
    appended
}

/// Appends the entry of a get by which this was received, with this note, and lets it be heard.
#[inline(always)]
fn append_told<H: Hears>(
    received: &Received,
    note: &Note,
    words: &[u8],
    text: &mut Vec<u8>,
    to: &mut H,
) -> Result<(), NoMemory>
    ensures text { OnOk result ((actor : UnitName) (call : Call) →
        words.now ≡ call_front actor call →
        text.new.items ≡ text.old.items ++ entry_text note.now (Done actor call
        (received_answer received.now).0 (received_answer received.now).1)) }
    ensures heard { H.heard to.old to.new (received_answer received.now) }
{
    to.hear_received(received);
    match received {
        Received::Event { h, given } => append_received(words, *h, given, note, text),
        Received::Nothing => append_quiet(words, &Reply::Nothing, note, text),
        Received::TooManyHandles => append_quiet(words, &Reply::TooManyHandles, note, text),
    }
}

/// Makes a get of the unit at a place, and appends its entry with this note.
#[inline(never)]
fn append_get<H: Hears>(
    tables: &mut Tables,
    place: Option<usize>,
    note: &Note,
    words: &[u8],
    text: &mut Vec<u8>,
    to: &mut H,
) -> Result<(), NoMemory>
    requires state { (core : State) × AgreesWith core tables.old }
    requires seated { (actor : UnitName) × (place ≡ place_in tables.old actor) }
    ensures { OnOk result (Enters place words.now Get note.now (H.heard to.old to.new)
        tables.old tables.new text.old.items text.new.items) }
{
    let Some(seat) = place else {
        return append_as_any(tables, place, note, words, Ask::Get, text, to);
    };
    let given = tables.give(seat);
    match &given {
        Ok(received) => append_told(received, note, words, text, to),
        Err(refused) => Err(*refused),
    }
}

/// Makes the publish or the release by the unit at a place that a common call is, and appends its
/// entry with this note.
#[inline(never)]
fn append_closing<H: Hears>(
    tables: &mut Tables,
    place: Option<usize>,
    note: &Note,
    words: &[u8],
    ask: Ask,
    h: u32,
    how: Close,
    text: &mut Vec<u8>,
    to: &mut H,
) -> Result<(), NoMemory>
    requires state { (core : State) × AgreesWith core tables.old }
    requires seated { (actor : UnitName) × (place ≡ place_in tables.old actor) }
    requires closing { closing how h ≡ asked ask }
    ensures { OnOk result (Enters place words.now (closing how h) note.now (H.heard to.old to.new)
        tables.old tables.new text.old.items text.new.items) }
{
    let mut effect = Effect::Nothing;
    match tables.close_handle(place, h, how, &mut effect) {
        Ok(true) => append_heard(words, &Reply::Ok, &effect, note, text, to),
        Ok(false) => append_as_any(tables, place, note, words, ask, text, to),
        Err(refused) => Err(refused),
    }
}

/// Makes a common call of the unit at a place as one of its own state alone, and appends its entry
/// with this note.
#[inline(never)]
fn append_refused<H: Hears>(
    tables: &mut Tables,
    place: Option<usize>,
    note: &Note,
    words: &[u8],
    ask: Ask,
    text: &mut Vec<u8>,
    to: &mut H,
) -> Result<(), NoMemory>
    requires state { (core : State) × AgreesWith core tables.old }
    requires seated { (actor : UnitName) × (place ≡ place_in tables.old actor) }
    ensures { OnOk result (Enters place words.now (asked ask) note.now (H.heard to.old to.new)
        tables.old tables.new text.old.items text.new.items) }
{
    let call = ask.call();
    let appended = append_alone(tables, place, note, words, &call, text, to);
    drop(call);
    appended
}

/// Makes the common call of the unit at a place that creates an event or drops one, and appends its
/// entry with this note.
fn append_brief<H: Hears>(
    tables: &mut Tables,
    place: Option<usize>,
    note: &Note,
    words: &[u8],
    ask: Ask,
    brief: Brief,
    text: &mut Vec<u8>,
    to: &mut H,
) -> Result<(), NoMemory>
    requires state { (core : State) × AgreesWith core tables.old }
    requires seated { (actor : UnitName) × (place ≡ place_in tables.old actor) }
    requires brief { brief_call brief ≡ asked ask }
    ensures { OnOk result (Enters place words.now (asked ask) note.now (H.heard to.old to.new)
        tables.old tables.new text.old.items text.new.items) }
{
    match tables.step_brief(place, brief)? {
        Some(accepted) => {
            append_accepted(words, accepted, note, text)?;
            to.hear_accepted(accepted);
            Ok(())
        }
        None => append_refused(tables, place, note, words, ask, text, to),
    }
}

/// Makes a common call of the unit at a place, and appends its entry with this note.
#[inline(always)]
fn append_asked<H: Hears>(
    tables: &mut Tables,
    place: Option<usize>,
    note: &Note,
    words: &[u8],
    ask: Ask,
    text: &mut Vec<u8>,
    to: &mut H,
) -> Result<(), NoMemory>
    requires state { (core : State) × AgreesWith core tables.old }
    requires seated { (actor : UnitName) × (place ≡ place_in tables.old actor) }
    ensures { OnOk result (Enters place words.now (asked ask) note.now (H.heard to.old to.new)
        tables.old tables.new text.old.items text.new.items) }
{
    match ask {
        Ask::Get => append_get(tables, place, note, words, text, to),
        Ask::Publish { h } => {
            append_closing(tables, place, note, words, ask, h, Close::Publish, text, to)
        }
        Ask::Release { h } => {
            append_closing(tables, place, note, words, ask, h, Close::Release, text, to)
        }
        _ => append_as_any(tables, place, note, words, ask, text, to),
    }
}

/// Makes a call of the unit at a place that isn't known to be one of its own state alone, a common
/// one in its own way, and appends its entry with this note.
fn append_other<H: Hears>(
    tables: &mut Tables,
    place: Option<usize>,
    note: &Note,
    words: &[u8],
    call: &Call,
    text: &mut Vec<u8>,
    to: &mut H,
) -> Result<(), NoMemory>
    requires state { (core : State) × AgreesWith core tables.old }
    requires seated { (actor : UnitName) × (place ≡ place_in tables.old actor) }
    ensures { OnOk result (Enters place words.now call.now note.now (H.heard to.old to.new)
        tables.old tables.new text.old.items text.new.items) }
{
    match ask_of(call) {
        Some(ask) => append_asked(tables, place, note, words, ask, text, to),
        None => append_answered(tables, place, note, words, call, text, to),
    }
}

/// Makes a call of the unit at a place, one of its own state alone in a way of its own, and appends
/// its entry with this note.
#[inline(always)]
fn append_alone<H: Hears>(
    tables: &mut Tables,
    place: Option<usize>,
    note: &Note,
    words: &[u8],
    call: &Call,
    text: &mut Vec<u8>,
    to: &mut H,
) -> Result<(), NoMemory>
    requires state { (core : State) × AgreesWith core tables.old }
    requires seated { (actor : UnitName) × (place ≡ place_in tables.old actor) }
    ensures { OnOk result (Enters place words.now call.now note.now (H.heard to.old to.new)
        tables.old tables.new text.old.items text.new.items) }
{
    let mut reply = Reply::Ok;
    match tables.step_alone(place, call, &mut reply) {
        Ok(true) => {
            append_quiet(words, &reply, note, text)?;
            to.hear_quiet(&reply);
            Ok(())
        }
        Ok(false) => append_other(tables, place, note, words, call, text, to),
        Err(refused) => Err(refused),
    }
}

/// Makes a common call of the unit at a place, and appends its entry with the unit's contamination
/// before it. Without memory nothing is told of the tables and the text.
pub fn append_common<H: Hears>(
    tables: &mut Tables,
    notes: &mut Notes,
    place: Option<usize>,
    words: &[u8],
    ask: Ask,
    text: &mut Vec<u8>,
    to: &mut H,
) -> Result<(), NoMemory>
    requires state { (core : State) × AgreesWith core tables.old }
    requires seated { (actor : UnitName) × (place ≡ place_in tables.old actor) }
    ensures { OnOk result (EntersNoted place words.now (asked ask) (H.heard to.old to.new)
        tables.old tables.new text.old.items text.new.items) }
{
    let note = notes.of(place, tables.contamination(place))?;
    match brief_of(ask) {
        Some(brief) => append_brief(tables, place, note, words, ask, brief, text, to),
        None => append_asked(tables, place, note, words, ask, text, to),
    }
}

/// Makes a call of the unit at a place, and appends its entry with the unit's contamination before
/// it. Without memory nothing is told of the tables and the text.
pub fn append_call<H: Hears>(
    tables: &mut Tables,
    notes: &mut Notes,
    place: Option<usize>,
    words: &[u8],
    call: &Call,
    text: &mut Vec<u8>,
    to: &mut H,
) -> Result<(), NoMemory>
    requires state { (core : State) × AgreesWith core tables.old }
    requires seated { (actor : UnitName) × (place ≡ place_in tables.old actor) }
    ensures { OnOk result (EntersNoted place words.now call.now (H.heard to.old to.new)
        tables.old tables.new text.old.items text.new.items) }
{
    let note = notes.of(place, tables.contamination(place))?;
    if let Call::ReadPart { .. } = call
        && let Some(part) = tables.seen_alone(place, call)
    {
        append_seen_alone(words, part, note, text)?;
        to.hear_seen(part);
        return Ok(());
    }
    append_alone(tables, place, note, words, call, text, to)
}
