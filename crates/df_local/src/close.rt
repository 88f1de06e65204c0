//! Closing a handle, and the commit that goes with it.

ghost use Rattle.std.specs.Prelude.{◌≡◌, IfOk, OnErr, option_copied};
ghost use Rattle.df_unit.specs.Drafts.{relabelled};
ghost use Rattle.df_unit.specs.Handles.{closed};
ghost use Rattle.df_unit.specs.Rows.{is_accepted, unwritable};
ghost use Rattle.df_local.specs.Locally.{Closes, closing_reply, edited, made_where, publish_effect, publish_reply, release_effect, release_reply, with_own};

use crate::Local;
use crate::answer::{Answer, quiet};
use df_handles::{copies_of, relabelled};
use df_label::Label;
use df_memory::NoMemory;
use df_part::{Edit, Spot};
use df_unit::{Commit, Effect, Handle, Reply};
use std::alloc::Global;

/// Which call closes a handle with a commit.
#[derive(Clone, Copy, Debug, PartialEq, Eq)]
pub enum Close {
    Publish,
    Release,
}

impl Local {
    /// Closes a handle.
    pub fn shut(&mut self, h: u32)
        ensures { self.new ≡ with_own self.old
            (record self.old.own { handles = closed self.old.own.handles h }) }
    {
        self.handles.close(h);
    }

    /// Closes a handle by a publish or a release that is answered with Ok, puts its effect there, and
    /// tells so. Where it is refused, nothing is done.
    pub fn close(&mut self, h: u32, how: Close, effect: &mut Effect) -> Result<bool, NoMemory>
        ensures made { IfOk result (λ is. Closes how h (made_where is effect.new)
            self.old self.new) }
        ensures unchanged { OnErr result (self.new ≡ self.old) }
    {
        let Some(handle) = self.handles.get(h) else {
            return Ok(false);
        };
        if !is_closed_by(&self.writing.output, handle, how) {
            return Ok(false);
        }
        if handle.named.as_slice().is_empty() && handle.drafted.as_slice().is_empty() {
            *effect = Effect::Nothing;
            self.shut(h);
            return Ok(true);
        }
        match self.handles.take(h, &self.writing.output, effect) {
            Ok(()) => Ok(true),
            Err(refused) => Err(refused),
        }
    }
}

/// Whether a publish or a release of this open handle is answered with Ok.
fn is_closed_by(output: &Label, handle: &Handle, how: Close) -> bool
    ensures { result ≡ is_accepted (closing_reply how output.now handle.now) }
{
    match how {
        Close::Publish => !handle.is_view && !handle.drafted.as_slice().is_empty(),
        Close::Release => {
            handle.is_view && unwritable(output, handle.named.as_slice()).is_none()
        }
    }
}

/// What a publish of an open handle is answered.
#[inline(never)]
pub(crate) fn publish_answer(
    alloc: Global,
    output: &Label,
    handle: &Handle,
) -> Result<Answer, NoMemory>
    ensures reply { IfOk result (λ a. a.reply ≡ publish_reply handle.now) }
    ensures effect { IfOk result (λ a. a.effect ≡ publish_effect output.now handle.now) }
{
    if handle.is_view {
        return Ok(quiet(Reply::NotDraft));
    }
    if handle.drafted.as_slice().is_empty() {
        return Ok(quiet(Reply::EmptyEvent));
    }
    Ok(Answer {
        reply: Reply::Ok,
        effect: Effect::Commit(commit_of(alloc, output, handle, Vec::new(alloc))?),
    })
}

/// What a release of an open handle is answered.
#[inline(never)]
pub(crate) fn release_answer(
    alloc: Global,
    output: &Label,
    handle: &Handle,
) -> Result<Answer, NoMemory>
    ensures reply { IfOk result (λ a. a.reply ≡ release_reply output.now handle.now) }
    ensures effect { IfOk result (λ a. a.effect ≡ release_effect output.now handle.now) }
{
    let named = handle.named.as_slice();
    if !handle.is_view {
        return Ok(quiet(Reply::NotReceived));
    }
    if let Some(spot) = unwritable(output, named) {
        return Ok(quiet(cannot_write(output, &spot.label)?));
    }
    if named.is_empty() && handle.drafted.as_slice().is_empty() {
        return Ok(quiet(Reply::Ok));
    }
    let deleted = copies_of(alloc, named)?;
    Ok(Answer {
        reply: Reply::Ok,
        effect: Effect::Commit(commit_of(alloc, output, handle, deleted)?),
    })
}

/// The commit of what is drafted at a handle, with these deletions.
fn commit_of(
    alloc: Global,
    output: &Label,
    handle: &Handle,
    deleted: Vec<Spot>,
) -> Result<Commit, NoMemory>
    ensures { IfOk result (λ commit. commit ≡ edited handle.now.event deleted.items
        (relabelled output.now handle.now.drafted)) }
{
    let event = handle.event.copy()?;
    let added = relabelled(alloc, output, handle.drafted.as_slice())?;
    let edit = Edit::adding(deleted, added);
    Ok(Commit { event, edit })
}

/// The first spot that a unit with this output label can't write.
fn unwritable<'a>(output: &Label, spots: &'a [Spot]) -> Option<&'a Spot>
    ensures { option_copied result ≡ unwritable output.now spots.now }
{
    spots.iter().find(|spot| !output.flows_to(&spot.label))
}

fn cannot_write(output: &Label, label: &Label) -> Result<Reply, NoMemory>
    ensures { IfOk result (λ r. r ≡ Reply.CannotWrite output.now label.now) }
{
    Ok(Reply::CannotWrite {
        out: output.copy()?,
        part: label.copy()?,
    })
}
