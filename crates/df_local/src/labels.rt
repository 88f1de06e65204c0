//! Changing a unit's labels.

ghost use Rattle.std.specs.Prelude.{◌≡◌, if◌then◌else◌, IfOk, OnErr, OnOk};
ghost use Rattle.df_label.specs.Label.{join};
ghost use Rattle.df_priv.specs.Needed.{needed};
ghost use Rattle.df_unit.specs.Rows.{changed, half_changed, is_instance, now_dropped, now_endorsed, tag_changed, where_held};
ghost use Rattle.df_unit.specs.declared.call.Call.{Call};
ghost use Rattle.df_unit.specs.declared.entry.Effect.{Effect};
ghost use Rattle.df_unit.specs.declared.reply.Reply.{Reply};
ghost use Rattle.df_local.specs.Locally.{Answers, with_own};

use crate::Local;
use crate::standing::{Reading, Writing};
use crate::take::is_accepted;
use df_label::{Label, Privilege, Tag, TagSet};
use df_memory::NoMemory;
use df_priv::{Act, Half, needed};
use df_unit::Reply;

impl Local {
    /// Changes the output label.
    pub fn change_out_label(&mut self, half: Half, act: Act, tag: &Tag) -> Result<Reply, NoMemory>
        ensures ok { IfOk result (λ r. Answers
            (Call.ChangeOutLabel half act tag.now) r self.old self.new) }
        ensures unchanged { OnErr result (self.new ≡ self.old) }
    {
        let reply = match self.out_reply(act, tag) {
            Ok(reply) => reply,
            Err(refused) => return Err(refused),
        };
        if !is_accepted(&reply) {
            return Ok(reply);
        }
        match self.put_out(half, act, tag) {
            Ok(()) => Ok(reply),
            Err(refused) => Err(refused),
        }
    }

    /// Changes both labels, each by itself.
    pub fn change_in_out(&mut self, half: Half, act: Act, tag: &Tag) -> Result<Reply, NoMemory>
        ensures ok { IfOk result (λ r. Answers
            (Call.ChangeInOut half act tag.now) r self.old self.new) }
        ensures unchanged { OnErr result (self.new ≡ self.old) }
    {
        let reply = match self.in_out_reply(act, tag) {
            Ok(reply) => reply,
            Err(refused) => return Err(refused),
        };
        if !is_accepted(&reply) {
            return Ok(reply);
        }
        match self.put_in_out(half, act, tag) {
            Ok(()) => Ok(reply),
            Err(refused) => Err(refused),
        }
    }

    /// That all is well where the privilege is held, else that it lacks.
    pub(crate) fn where_held(&self, q: Privilege) -> Reply
        ensures { result ≡ where_held self.now.own q Reply.Ok }
    {
        if self.held.holds(&q) {
            Reply::Ok
        } else {
            Reply::Lacks(q)
        }
    }

    pub(crate) fn out_reply(&self, act: Act, tag: &Tag) -> Result<Reply, NoMemory>
        ensures { IfOk result (λ r. r ≡ where_held self.now.own (needed act tag.now) Reply.Ok) }
    {
        let q = needed(act, tag)?;
        Ok(self.where_held(q))
    }

    pub(crate) fn in_out_reply(&self, act: Act, tag: &Tag) -> Result<Reply, NoMemory>
        ensures { IfOk result (λ r. r ≡ (if is_instance self.now.unit then Reply.NotInManaged
            else where_held self.now.own (needed act tag.now) Reply.Ok)) }
    {
        if self.is_instance() {
            return Ok(Reply::NotInManaged);
        }
        let q = needed(act, tag)?;
        Ok(self.where_held(q))
    }

    pub(crate) fn put_out(&mut self, half: Half, act: Act, tag: &Tag) -> Result<(), NoMemory>
        ensures ok { OnOk result (self.new ≡ with_own self.old
            (changed self.old.unit self.old.own
            (Call.ChangeOutLabel half act tag.now) Effect.Nothing)) }
        ensures unchanged { OnErr result (self.new ≡ self.old) }
    {
        match self.out_changed(half, act, tag) {
            Ok(out) => {
                self.writing = out;
                Ok(())
            }
            Err(refused) => Err(refused),
        }
    }

    pub(crate) fn put_in_out(&mut self, half: Half, act: Act, tag: &Tag) -> Result<(), NoMemory>
        ensures ok { OnOk result (self.new ≡ with_own self.old
            (changed self.old.unit self.old.own
            (Call.ChangeInOut half act tag.now) Effect.Nothing)) }
        ensures unchanged { OnErr result (self.new ≡ self.old) }
    {
        let ins = match self.in_changed(half, act, tag) {
            Ok(ins) => ins,
            Err(refused) => return Err(refused),
        };
        match self.out_changed(half, act, tag) {
            Ok(out) => {
                self.reading = ins;
                self.writing = out;
                Ok(())
            }
            Err(refused) => Err(refused),
        }
    }

    fn out_changed(&self, half: Half, act: Act, tag: &Tag) -> Result<Writing, NoMemory>
        ensures output { IfOk result (λ c. c.output ≡ half_changed half act tag.now
            self.now.own.output) }
        ensures dropped { IfOk result (λ c. c.dropped ≡ now_dropped half act tag.now self.now.own) }
        ensures endorsed { IfOk result (λ c. c.endorsed ≡ now_endorsed half act tag.now
            self.now.own) }
    {
        let output = half_changed(half, act, tag, &self.writing.output)?;
        let dropped = self.now_dropped(half, act, tag)?;
        let endorsed = self.now_endorsed(half, act, tag)?;
        Ok(Writing {
            output,
            dropped,
            endorsed,
        })
    }

    fn in_changed(&self, half: Half, act: Act, tag: &Tag) -> Result<Reading, NoMemory>
        ensures input { IfOk result (λ c. c.input ≡ half_changed half act tag.now
            self.now.own.input) }
        ensures contamination { IfOk result (λ c. c.contamination ≡ join self.now.own.contamination
            (half_changed half act tag.now self.now.own.input)) }
    {
        let input = half_changed(half, act, tag, &self.reading.input)?;
        Reading::behind(&self.reading.contamination, input)
    }

    fn now_dropped(&self, half: Half, act: Act, tag: &Tag) -> Result<TagSet, NoMemory>
        ensures { IfOk result (λ s. s ≡ now_dropped half act tag.now self.now.own) }
    {
        match (half, act) {
            (Half::S, Act::Del) if self.writing.output.s.contains(tag) => self
                .writing
                .dropped
                .with(tag),
            _ => self.writing.dropped.copy(),
        }
    }

    fn now_endorsed(&self, half: Half, act: Act, tag: &Tag) -> Result<TagSet, NoMemory>
        ensures { IfOk result (λ s. s ≡ now_endorsed half act tag.now self.now.own) }
    {
        match (half, act) {
            (Half::I, Act::Add) if !self.writing.output.i.contains(tag) => self
                .writing
                .endorsed
                .with(tag),
            _ => self.writing.endorsed.copy(),
        }
    }
}

/// A label with a tag put into or taken out of one half.
fn half_changed(half: Half, act: Act, tag: &Tag, label: &Label) -> Result<Label, NoMemory>
    ensures { IfOk result (λ l. l ≡ half_changed half act tag.now label.now) }
{
    match half {
        Half::S => {
            let s = tag_changed(act, tag, &label.s)?;
            let i = label.i.copy()?;
            Ok(Label { s, i })
        }
        Half::I => {
            let s = label.s.copy()?;
            let i = tag_changed(act, tag, &label.i)?;
            Ok(Label { s, i })
        }
    }
}

fn tag_changed(act: Act, tag: &Tag, tags: &TagSet) -> Result<TagSet, NoMemory>
    ensures { IfOk result (λ s. s ≡ tag_changed act tag.now tags.now) }
{
    match act {
        Act::Add => tags.with(tag),
        Act::Del => tags.without(tag),
    }
}
