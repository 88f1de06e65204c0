//! Calls, replies, effects and entries have a spelling, as their types give it.
ghost use Rattle.std.specs.Prelude.{◌≡◌, ◌<◌, ◌^◌, ◌∷◌, [], true};
ghost use Rattle.df_frozen.specs.Name.{is_name};
ghost use Rattle.df_journal_file.specs.Journal.{IsWholeEntry};
ghost use Rattle.df_journal_text.specs.Fits.{AreRoots, IsCall, IsCommit, IsPart, IsPartRead, IsReply, IsRoot, IsSpot};
ghost use Rattle.df_spelled.specs.Spelled.{IsJoined, IsOutput, IsWorded};
ghost use Rattle.df_unit.specs.Drafts.{show};
ghost use Rattle.df_unit.specs.declared.entry.Effect.TheVariants as effect;
ghost use Rattle.df_unit.specs.declared.reply.Reply.TheVariants.{Event, Parts};
ghost use Rattle.df_value_text.specs.Fits.{IsLabel};

use crate::laws::worded_and_joined_is_whole;
use crate::names::{
    event_is_spelled, label_is_spelled, name_is_spelled, number_is_short, privileges_are_spelled,
    tag_set_is_spelled, unit_is_spelled,
};
use crate::spelled::{Spelled, each_is_spelled};
use crate::values::{filter_is_spelled, frozen_is_spelled};
use df_frozen::Name;
use df_label::Label;
use df_part::{Part, PartRef, Spot};
use df_start::{RootStart, Start};
use df_unit::{Call, Commit, Effect, Entry, Given, PartRead, Reply};

/// A number has 64 bits.
fn count_is_short(count: u64)
    ensures { count < 2 ^ 64 }
{
    let _ = count;
}

/// A handle, a label and a name have a spelling.
fn place_is_spelled(h: u32, label: &Label, name: &Name)
    ensures handle { h < 2 ^ 32 }
    ensures label { IsLabel label.now }
    ensures name { is_name name.now ≡ true }
{
    number_is_short(h);
    label_is_spelled(label);
    name_is_spelled(name);
}

/// A call has a spelling.
fn call_is_spelled(call: &Call)
    ensures { IsCall call.now }
{
    match call {
        Call::CreateEvent | Call::CreateTag | Call::Get => (),
        Call::AddPart {
            h,
            label,
            name,
            value,
        } => {
            place_is_spelled(*h, label, name);
            frozen_is_spelled(value);
        }
        Call::DelPart { h, label, name } => place_is_spelled(*h, label, name),
        Call::ReadPart { h, name } => {
            number_is_short(*h);
            name_is_spelled(name);
        }
        Call::CloneEvent { h, label } => {
            number_is_short(*h);
            label_is_spelled(label);
        }
        Call::AttachPrivilege { h, label, name, p } => {
            place_is_spelled(*h, label, name);
            p.is_spelled();
        }
        Call::ChangeOutLabel { tag, .. } | Call::ChangeInOut { tag, .. } => tag.is_spelled(),
        Call::DropEvent { h } | Call::Publish { h } | Call::Release { h } => number_is_short(*h),
        Call::Subscribe { filter } | Call::SubscribeManaged { filter } => filter_is_spelled(filter),
        Call::Instantiate { s, privileges } => {
            tag_set_is_spelled(s);
            privileges_are_spelled(privileges);
        }
    }
}

/// What a read shows of a part has a spelling.
impl Spelled for PartRead {
    ghost fits = { λ part. IsPartRead part };

    fn is_spelled(&self) {
        label_is_spelled(&self.label);
        frozen_is_spelled(&self.value);
        privileges_are_spelled(&self.privileges);
    }
}

/// What a get tells of an event has a spelling.
pub fn event_reply_is_spelled(h: u32, sub: u32)
    ensures { IsReply (Event h sub) }
{
    number_is_short(h);
    number_is_short(sub);
}

/// A reply has a spelling.
pub fn reply_is_spelled(reply: &Reply)
    ensures { IsReply reply.now }
{
    match reply {
        Reply::Handle(h) => number_is_short(*h),
        Reply::Tag(tag) => tag.is_spelled(),
        Reply::Sub(n) => number_is_short(*n),
        Reply::Unit(n) => number_is_short(*n),
        Reply::Event { h, sub } => event_reply_is_spelled(*h, *sub),
        Reply::Parts(parts) => each_is_spelled(parts.as_slice()),
        Reply::TooManyParts { wanted } => count_is_short(*wanted),
        Reply::Lacks(p) => p.is_spelled(),
        Reply::CannotWrite { out, part } => {
            label_is_spelled(out);
            label_is_spelled(part);
        }
        _ => (),
    }
}

/// What a read shows has a spelling, where it is one part alone.
pub fn seen_is_spelled(part: &Part)
    ensures { IsReply (Parts (show part.now ∷ [])) }
{
    label_is_spelled(&part.label);
    frozen_is_spelled(&part.value);
    privileges_are_spelled(&part.privileges);
}

/// A part has a spelling.
fn part_is_spelled(part: &Part)
    ensures { IsPart part.now }
{
    name_is_spelled(&part.name);
    label_is_spelled(&part.label);
    frozen_is_spelled(&part.value);
    privileges_are_spelled(&part.privileges);
}

impl Spelled for PartRef {
    ghost fits = { λ part. IsPart part };

    fn is_spelled(&self) {
        part_is_spelled(self.part());
    }
}

/// A spot has a spelling.
impl Spelled for Spot {
    ghost fits = { λ spot. IsSpot spot };

    fn is_spelled(&self) {
        name_is_spelled(&self.name);
        label_is_spelled(&self.label);
    }
}

/// A commit has a spelling.
fn commit_is_spelled(commit: &Commit)
    ensures { IsCommit commit.now }
{
    event_is_spelled(&commit.event);
    each_is_spelled(commit.edit.deleted());
    each_is_spelled(commit.edit.added());
}

/// What a get hands out has a spelling.
pub fn given_is_spelled(given: &Given)
    ensures { IsOutput (effect.Given given.now) }
{
    event_is_spelled(&given.event);
    each_is_spelled(given.parts.as_slice());
}

/// An effect has a spelling.
pub fn effect_is_spelled(effect: &Effect)
    ensures { IsOutput effect.now }
{
    match effect {
        Effect::Nothing => (),
        Effect::Commit(commit) => commit_is_spelled(commit),
        Effect::Given(given) => given_is_spelled(given),
    }
}

/// The words of an answer are literals.
fn answer_is_spelled(reply: &Reply, effect: &Effect)
    ensures reply { IsReply reply.now }
    ensures effect { IsOutput effect.now }
{
    reply_is_spelled(reply);
    effect_is_spelled(effect);
}

/// The words of an entry are literals.
fn entry_is_worded(entry: &Entry)
    ensures { IsWorded entry.now }
{
    match entry {
        Entry::Done {
            actor,
            call,
            reply,
            effect,
        } => {
            unit_is_spelled(actor);
            call_is_spelled(call);
            answer_is_spelled(reply, effect);
        }
        Entry::Emitted(commit) => commit_is_spelled(commit),
    }
}

/// An entry has a spelling, where its reply and effect belong together.
pub fn entry_is_spelled(entry: &Entry)
    requires { IsJoined entry.now }
    ensures { IsWholeEntry entry.now }
{
    entry_is_worded(entry);
    worded_and_joined_is_whole();
}

/// A root has a spelling.
impl Spelled for RootStart {
    ghost fits = { λ root. IsRoot root };

    fn is_spelled(&self) {
        label_is_spelled(&self.label);
        privileges_are_spelled(&self.privileges);
    }
}

/// A start has a spelling.
pub fn start_is_spelled(start: &Start)
    ensures { AreRoots start.now }
{
    each_is_spelled(start.as_slice());
}
