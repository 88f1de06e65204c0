//! A contamination that is noted of entries, with its line.

ghost use Rattle.std.specs.Prelude.{◌≡◌, ◌↔◌, ◌++◌, [], IsTrue, None, Some, IfOk, OnErr, OnOk, option_copied};
ghost use Rattle.df_unit.specs.declared.reply.Reply.TheVariants as Reply;
ghost use Rattle.df_journal_text.specs.Entry.{note_text};
ghost use Rattle.df_journal_text.specs.code.Outcome.{answer_text};

use crate::entry::append_contamination;
use df_label::Label;
use df_memory::NoMemory;
use std::alloc::Global;
use std::marker::Model;

// The reply of a call, behind its words, where it is the commonest.
const OK: &[u8] = b" -> ok\n";

// The reply of a read, behind its words.
const PARTS: &[u8] = b" -> parts\n";

/// The first handle, behind the words of a call.
fn first_handle() -> &'static [u8]
    ensures { result.now ≡ answer_text (Reply.Handle 0) }
{
    b" -> handle 0\n"
}

/// The first handle and the first subscription, behind the words of a call that is told an event.
fn first_view() -> &'static [u8]
    ensures { result.now ≡ answer_text (Reply.Event 0 0) }
{
    b" -> event 0 0\n"
}

/// A contamination that is noted, if there is one, and its line, which is spelled once for as long
/// as the contamination stands. A contract sees the contamination.
#[derive(Drop)]
pub struct Note {
    contamination: Option<Label>,
    /// The line, behind the reply `ok`, with which it is mostly appended; no bytes where nothing is
    /// noted.
    outcome: Vec<u8>,
    /// The line behind the handle that a unit without open events is told; no bytes where nothing
    /// is noted.
    handled: Vec<u8>,
    /// The line behind the reply of a read; no bytes where nothing is noted.
    shown: Vec<u8>,
    /// The line behind the event that a unit without open events is told by its first
    /// subscription; no bytes where nothing is noted.
    viewed: Vec<u8>,
}

impl Model for Note {
    ghost use Rattle.std.specs.Prelude.{◌≡◌, [], Option};
    ghost use Rattle.std.specs.Coded.{coded_option};
    ghost use Rattle.df_label.specs.contracts.label.Label as label;
    ghost use Rattle.df_label.specs.declared.label.Label.{Label};
    ghost use Rattle.df_journal_text.specs.code.Outcome.{noted_answer};
    ghost use Rattle.df_unit.specs.declared.reply.Reply.TheVariants.{Event, Handle, Ok, Parts};

    ghost Value = { Option Label };

    ghost coded = { coded_option label.the_row.coded };

    ghost view = { λ n. n.contamination };

    ghost invariant = { λ n. (n.outcome.items ≡ noted_answer Ok n.contamination)
        × (n.handled.items ≡ noted_answer (Handle 0) n.contamination)
        × (n.shown.items ≡ noted_answer (Parts []) n.contamination)
        × (n.viewed.items ≡ noted_answer (Event 0 0) n.contamination) };
}

/// Whether the label has no tag, as most have none.
pub(crate) fn is_empty(label: &Label) -> bool
    ensures { IsTrue result ↔ (label.now.s ≡ []) × (label.now.i ≡ []) }
{
    label.s.is_empty() && label.i.is_empty()
}

/// Whether the two labels are equal.
fn same(label: &Label, other: &Label) -> bool
    ensures { IsTrue result ↔ label.now ≡ other.now }
{
    is_empty(label) && is_empty(other) || have_same_tags(label, other)
}

/// Whether the two labels have the same tags.
#[inline(never)]
fn have_same_tags(label: &Label, other: &Label) -> bool
    ensures { IsTrue result ↔ label.now ≡ other.now }
{
    label.same(other)
}

/// Whether this contamination is noted, or none where there is none.
fn is_noted(noted: &Option<Label>, contamination: Option<&Label>) -> bool
    ensures { IsTrue result ↔ noted.now ≡ option_copied contamination.entry }
{
    match (noted, contamination) {
        (Some(noted), Some(label)) => same(noted, label),
        (None, None) => true,
        _ => false,
    }
}

/// The line of a contamination behind a reply.
fn answered(alloc: Global, reply: &[u8], label: &Label) -> Result<Vec<u8>, NoMemory>
    ensures { IfOk result (λ text. text.items ≡ reply.now ++ note_text (Some label.now)) }
{
    let mut text = Vec::from_slice(alloc, reply)?;
    append_contamination(label, &mut text)?;
    Ok(text)
}

/// A contamination, with its line.
fn spelled(alloc: Global, contamination: Option<&Label>) -> Result<Note, NoMemory>
    ensures { IfOk result (λ note. note ≡ option_copied contamination.entry) }
{
    let Some(label) = contamination else {
        return Ok(Note::new(alloc));
    };
    let outcome = answered(alloc, OK, label)?;
    let handled = answered(alloc, first_handle(), label)?;
    let shown = answered(alloc, PARTS, label)?;
    let viewed = answered(alloc, first_view(), label)?;
    let label = label.copy()?;
    Ok(Note {
        contamination: Some(label),
        outcome,
        handled,
        shown,
        viewed,
    })
}

impl Note {
    /// Nothing is noted. Takes no memory.
    pub fn new(alloc: Global) -> Note
        ensures { result ≡ None }
    {
        Note {
            contamination: None,
            outcome: Vec::new(alloc),
            handled: Vec::new(alloc),
            shown: Vec::new(alloc),
            viewed: Vec::new(alloc),
        }
    }

    /// The line; no bytes where nothing is noted.
    pub fn as_bytes(&self) -> &[u8]
        ensures { result.now ≡ note_text self.now }
    {
        if self.outcome.is_empty() {
            return &[];
        }
        &self.outcome.as_slice()[OK.len()..]
    }

    /// The line behind the reply `ok`.
    pub(crate) fn behind_ok(&self) -> &[u8]
        ensures { result.now ≡ answer_text Reply.Ok ++ note_text self.now }
    {
        if self.outcome.is_empty() {
            return OK;
        }
        self.outcome.as_slice()
    }

    /// The line behind the first handle.
    pub(crate) fn behind_first(&self) -> &[u8]
        ensures { result.now ≡ answer_text (Reply.Handle 0) ++ note_text self.now }
    {
        if self.handled.is_empty() {
            return first_handle();
        }
        self.handled.as_slice()
    }

    /// The line behind the reply of a read.
    pub(crate) fn behind_parts(&self) -> &[u8]
        ensures { result.now ≡ answer_text (Reply.Parts []) ++ note_text self.now }
    {
        if self.shown.is_empty() {
            return PARTS;
        }
        self.shown.as_slice()
    }

    /// The line behind the first handle and the first subscription.
    pub(crate) fn behind_view(&self) -> &[u8]
        ensures { result.now ≡ answer_text (Reply.Event 0 0) ++ note_text self.now }
    {
        if self.viewed.is_empty() {
            return first_view();
        }
        self.viewed.as_slice()
    }

    /// Notes this contamination, or none. Its line is spelled only where it is another than what
    /// was noted.
    pub fn set(&mut self, contamination: Option<&Label>) -> Result<(), NoMemory>
        ensures ok { OnOk result (self.new ≡ option_copied contamination.entry) }
        ensures err { OnErr result (self.new ≡ self.old) }
    {
        if is_noted(&self.contamination, contamination) {
            return Ok(());
        }
        self.renew(contamination)
    }

    /// Spells the line of this contamination, or of none, in place of what was noted.
    #[inline(never)]
    fn renew(&mut self, contamination: Option<&Label>) -> Result<(), NoMemory>
        ensures ok { OnOk result (self.new ≡ option_copied contamination.entry) }
        ensures err { OnErr result (self.new ≡ self.old) }
    {
        *self = spelled(*self.outcome.allocator(), contamination)?;
        Ok(())
    }
}
