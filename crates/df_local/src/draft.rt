//! Opening drafts, and drafting parts.

ghost use Rattle.std.specs.Prelude.{◌≡◌, [], IfOk, OnOk, OnErr};
ghost use Rattle.df_unit.specs.Rows.{changed, drafting, reply};
ghost use Rattle.df_unit.specs.declared.call.Call.{Call};
ghost use Rattle.df_unit.specs.declared.entry.Effect.{Effect};
ghost use Rattle.df_unit.specs.declared.reply.Reply.{Reply};
ghost use Rattle.df_local.specs.Locally.{Answers, added_reply, with_own};

use crate::Local;
use crate::limits::{MOST_NUMBERS, MOST_PARTS};
use crate::take::is_accepted;
use df_frozen::{Frozen, Name};
use df_handles::new_part;
use df_label::Label;
use df_memory::NoMemory;
use df_part::Parts;
use df_unit::{Drafts, EventName, Handle, Reply, Spots};

impl Local {
    /// Opens an empty draft of the unit's next event.
    pub fn create_event(&mut self) -> Result<Reply, NoMemory>
        ensures ok { IfOk result (λ r. Answers Call.CreateEvent r self.old self.new) }
        ensures unchanged { OnErr result (self.new ≡ self.old) }
    {
        let reply = self.create_reply();
        if !is_accepted(&reply) {
            return Ok(reply);
        }
        match self.put_empty() {
            Ok(()) => Ok(reply),
            Err(refused) => Err(refused),
        }
    }

    pub(crate) fn create_reply(&self) -> Reply
        ensures { result ≡ reply self.now.unit self.now.own [] Call.CreateEvent }
    {
        if self.handles.is_full() {
            return Reply::TooManyHandles;
        }
        if self.events >= MOST_NUMBERS {
            return Reply::Exhausted;
        }
        Reply::Handle(self.handles.least_free())
    }

    /// Opens an empty draft of the unit's next event.
    pub(crate) fn put_empty(&mut self) -> Result<(), NoMemory>
        ensures ok { OnOk result (self.new ≡ with_own self.old
            (drafting self.old.unit [] self.old.own)) }
        ensures unchanged { OnErr result (self.new ≡ self.old) }
    {
        if self.events >= MOST_NUMBERS {
            return Err(NoMemory);
        }
        self.handles.open_draft(&self.name, self.events)?;
        self.events += 1;
        Ok(())
    }

    /// Opens a draft of the unit's next event, with these parts.
    pub(crate) fn put_draft(&mut self, drafted: Drafts) -> Result<(), NoMemory>
        ensures ok { OnOk result (self.new ≡ with_own self.old
            (drafting self.old.unit drafted self.old.own)) }
        ensures unchanged { OnErr result (self.new ≡ self.old) }
    {
        if self.events >= MOST_NUMBERS {
            return Err(NoMemory);
        }
        let unit = match self.name.copy() {
            Ok(unit) => unit,
            Err(refused) => return Err(refused),
        };
        let handle = Handle {
            is_view: false,
            event: EventName {
                unit,
                number: self.events,
            },
            seen: Parts::new(Vec::new(self.alloc)),
            named: Spots::new(Vec::new(self.alloc)),
            drafted,
        };
        match self.handles.open(handle) {
            Ok(()) => {}
            Err(refused) => return Err(refused),
        }
        self.events += 1;
        Ok(())
    }

    /// Drafts a part, with its label raised to the unit's output label.
    pub fn add_part(
        &mut self,
        h: u32,
        label: &Label,
        name: &Name,
        value: &Frozen,
    ) -> Result<Reply, NoMemory>
        ensures ok { IfOk result (λ r. Answers
            (Call.AddPart h label.now name.now value.now) r self.old self.new) }
        ensures unchanged { OnErr result (self.new ≡ self.old) }
    {
        let reply = self.add_reply(h);
        if !is_accepted(&reply) {
            return Ok(reply);
        }
        match self.put_part(h, label, name, value) {
            Ok(()) => Ok(reply),
            Err(refused) => Err(refused),
        }
    }

    /// Drafts a part as `add_part` does, and puts a refusal in place of an Ok.
    #[inline(always)]
    pub(crate) fn add_or_refuse(
        &mut self,
        h: u32,
        label: &Label,
        name: &Name,
        value: &Frozen,
        reply: &mut Reply,
    ) -> Result<(), NoMemory>
        requires { reply.old ≡ Reply.Ok }
        ensures ok { OnOk result (Answers
            (Call.AddPart h label.now name.now value.now) reply.new self.old self.new) }
        ensures unchanged { OnErr result (self.new ≡ self.old) }
    {
        match self.add_reply(h) {
            Reply::Ok => self.put_part(h, label, name, value),
            refusal => {
                *reply = refusal;
                Ok(())
            }
        }
    }

    pub(crate) fn add_reply(&self, h: u32) -> Reply
        ensures { result ≡ added_reply self.now.own h }
    {
        let Some(handle) = self.handles.get(h) else {
            return Reply::NoSuchHandle;
        };
        if handle.drafted.as_slice().len() >= MOST_PARTS {
            return Reply::TooManyParts {
                wanted: MOST_PARTS as u64 + 1,
            };
        }
        Reply::Ok
    }

    pub(crate) fn put_part(
        &mut self,
        h: u32,
        label: &Label,
        name: &Name,
        value: &Frozen,
    ) -> Result<(), NoMemory>
        ensures ok { OnOk result (self.new ≡ with_own self.old
            (changed self.old.unit self.old.own
            (Call.AddPart h label.now name.now value.now) Effect.Nothing)) }
        ensures unchanged { OnErr result (self.new ≡ self.old) }
    {
        match new_part(self.alloc, &self.writing.output, label, name, value) {
            Ok(part) => self.handles.draft(h, part),
            Err(refused) => Err(refused),
        }
    }

    /// Closes a handle and lets what it drafted go.
    pub fn drop_event(&mut self, h: u32) -> Result<Reply, NoMemory>
        ensures ok { IfOk result (λ r. Answers (Call.DropEvent h) r self.old self.new) }
        ensures unchanged { OnErr result (self.new ≡ self.old) }
    {
        let reply = self.drop_reply(h);
        if is_accepted(&reply) {
            self.shut(h);
        }
        Ok(reply)
    }

    pub(crate) fn drop_reply(&self, h: u32) -> Reply
        ensures { result ≡ reply self.now.unit self.now.own [] (Call.DropEvent h) }
    {
        match self.handles.get(h) {
            Some(_) => Reply::Ok,
            None => Reply::NoSuchHandle,
        }
    }
}
