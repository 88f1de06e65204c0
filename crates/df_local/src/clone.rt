//! Cloning an event.

ghost use Rattle.std.specs.Prelude.{◌≡◌, [], IfOk, OnErr, OnOk};
ghost use Rattle.df_unit.specs.Rows.{changed, reply};
ghost use Rattle.df_unit.specs.declared.call.Call.{Call};
ghost use Rattle.df_unit.specs.declared.entry.Effect.{Effect};
ghost use Rattle.df_local.specs.Locally.{Answers, with_own};

use crate::Local;
use crate::limits::{MOST_NUMBERS, MOST_PARTS};
use crate::take::is_accepted;
use df_handles::{cloned, source_count};
use df_label::Label;
use df_memory::NoMemory;
use df_unit::{Drafts, Reply};

impl Local {
    /// Opens a draft of the unit's next event, with a copy of each visible and each drafted part.
    pub fn clone_event(&mut self, h: u32, label: &Label) -> Result<Reply, NoMemory>
        ensures ok { IfOk result (λ r. Answers (Call.CloneEvent h label.now) r self.old self.new) }
        ensures unchanged { OnErr result (self.new ≡ self.old) }
    {
        let reply = match self.clone_reply(h, label) {
            Ok(reply) => reply,
            Err(refused) => return Err(refused),
        };
        if !is_accepted(&reply) {
            return Ok(reply);
        }
        match self.put_clone(h, label) {
            Ok(()) => Ok(reply),
            Err(refused) => Err(refused),
        }
    }

    pub(crate) fn clone_reply(&self, h: u32, label: &Label) -> Result<Reply, NoMemory>
        ensures { IfOk result (λ r. r ≡ reply self.now.unit self.now.own []
            (Call.CloneEvent h label.now)) }
    {
        let Some(handle) = self.handles.get(h) else {
            return Ok(Reply::NoSuchHandle);
        };
        if self.handles.is_full() {
            return Ok(Reply::TooManyHandles);
        }
        let count = source_count(&self.reading.input, handle)?;
        if count > MOST_PARTS {
            return Ok(Reply::TooManyParts {
                wanted: count as u64,
            });
        }
        if self.events >= MOST_NUMBERS {
            return Ok(Reply::Exhausted);
        }
        Ok(Reply::Handle(self.handles.least_free()))
    }

    pub(crate) fn put_clone(&mut self, h: u32, label: &Label) -> Result<(), NoMemory>
        ensures ok { OnOk result (self.new ≡ with_own self.old
            (changed self.old.unit self.old.own (Call.CloneEvent h label.now) Effect.Nothing)) }
        ensures unchanged { OnErr result (self.new ≡ self.old) }
    {
        let Some(handle) = self.handles.get(h) else {
            return self.put_draft(Drafts::new(Vec::new(self.alloc)));
        };
        let (output, input) = (&self.writing.output, &self.reading.input);
        match cloned(self.alloc, output, label, input, handle) {
            Ok(parts) => self.put_draft(Drafts::new(parts)),
            Err(refused) => Err(refused),
        }
    }
}
