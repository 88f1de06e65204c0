//! Deleting parts, and attaching privileges to drafted ones.

ghost use Rattle.std.specs.Prelude.{◌≡◌, [], IfOk, OnOk, OnErr};
ghost use Rattle.df_unit.specs.Drafts.{spot};
ghost use Rattle.df_unit.specs.Rows.{changed, reply};
ghost use Rattle.df_unit.specs.declared.call.Call.{Call};
ghost use Rattle.df_unit.specs.declared.entry.Effect.{Effect};
ghost use Rattle.df_unit.specs.declared.reply.Reply.{Reply};
ghost use Rattle.df_local.specs.Locally.{Answers, with_own};

use crate::Local;
use crate::take::is_accepted;
use df_frozen::Name;
use df_handles::{has_drafted, has_visible};
use df_label::{Label, Privilege};
use df_memory::NoMemory;
use df_part::Spot;
use df_priv::needed_to_attach;
use df_unit::Reply;

impl Local {
    /// Takes all drafted parts of a name and label out of the draft. Where there are none, names
    /// the visible ones for deletion.
    pub fn del_part(&mut self, h: u32, label: &Label, name: &Name) -> Result<Reply, NoMemory>
        ensures ok { IfOk result (λ r. Answers
            (Call.DelPart h label.now name.now) r self.old self.new) }
        ensures unchanged { OnErr result (self.new ≡ self.old) }
    {
        let reply = match self.del_reply(h, label, name) {
            Ok(reply) => reply,
            Err(refused) => return Err(refused),
        };
        if !is_accepted(&reply) {
            return Ok(reply);
        }
        match self.put_deleted(h, label, name) {
            Ok(()) => Ok(reply),
            Err(refused) => Err(refused),
        }
    }

    /// Attaches a privilege to all drafted parts of a name and label.
    pub fn attach_privilege(
        &mut self,
        h: u32,
        label: &Label,
        name: &Name,
        p: &Privilege,
    ) -> Result<Reply, NoMemory>
        ensures ok { IfOk result (λ r. Answers
            (Call.AttachPrivilege h label.now name.now p.now) r self.old self.new) }
        ensures unchanged { OnErr result (self.new ≡ self.old) }
    {
        let reply = match self.attach_reply(h, label, name, p) {
            Ok(reply) => reply,
            Err(refused) => return Err(refused),
        };
        if !is_accepted(&reply) {
            return Ok(reply);
        }
        match self.put_attached(h, label, name, p) {
            Ok(()) => Ok(reply),
            Err(refused) => Err(refused),
        }
    }

    /// Deletes as `del_part` does, and puts a refusal in place of an Ok.
    #[inline(always)]
    pub(crate) fn del_or_refuse(
        &mut self,
        h: u32,
        label: &Label,
        name: &Name,
        reply: &mut Reply,
    ) -> Result<(), NoMemory>
        requires { reply.old ≡ Reply.Ok }
        ensures ok { OnOk result (Answers
            (Call.DelPart h label.now name.now) reply.new self.old self.new) }
        ensures unchanged { OnErr result (self.new ≡ self.old) }
    {
        match self.del_reply(h, label, name) {
            Ok(Reply::Ok) => self.put_deleted(h, label, name),
            Ok(refusal) => {
                *reply = refusal;
                Ok(())
            }
            Err(refused) => Err(refused),
        }
    }

    pub(crate) fn del_reply(&self, h: u32, label: &Label, name: &Name) -> Result<Reply, NoMemory>
        ensures { IfOk result (λ r. r ≡ reply self.now.unit self.now.own []
            (Call.DelPart h label.now name.now)) }
    {
        let Some(handle) = self.handles.get(h) else {
            return Ok(Reply::NoSuchHandle);
        };
        if has_drafted(handle.drafted.as_slice(), name, label) {
            return Ok(Reply::Ok);
        }
        if !has_visible(&self.reading.input, handle, name, label) {
            return Ok(Reply::NoSuchPart);
        }
        if !self.writing.output.flows_to(label) {
            return cannot_write(&self.writing.output, label);
        }
        Ok(Reply::Ok)
    }

    pub(crate) fn put_deleted(&mut self, h: u32, label: &Label, name: &Name) -> Result<(), NoMemory>
        ensures ok { OnOk result (self.new ≡ with_own self.old
            (changed self.old.unit self.old.own
            (Call.DelPart h label.now name.now) Effect.Nothing)) }
        ensures unchanged { OnErr result (self.new ≡ self.old) }
    {
        match spot_at(name, label) {
            Ok(spot) => self.handles.delete(h, spot),
            Err(refused) => Err(refused),
        }
    }

    pub(crate) fn attach_reply(
        &self,
        h: u32,
        label: &Label,
        name: &Name,
        p: &Privilege,
    ) -> Result<Reply, NoMemory>
        ensures { IfOk result (λ r. r ≡ reply self.now.unit self.now.own []
            (Call.AttachPrivilege h label.now name.now p.now)) }
    {
        let Some(handle) = self.handles.get(h) else {
            return Ok(Reply::NoSuchHandle);
        };
        if !has_drafted(handle.drafted.as_slice(), name, label) {
            return Ok(Reply::NoSuchPart);
        }
        let q = needed_to_attach(p)?;
        Ok(self.where_held(q))
    }

    pub(crate) fn put_attached(
        &mut self,
        h: u32,
        label: &Label,
        name: &Name,
        p: &Privilege,
    ) -> Result<(), NoMemory>
        ensures ok { OnOk result (self.new ≡ with_own self.old
            (changed self.old.unit self.old.own
            (Call.AttachPrivilege h label.now name.now p.now) Effect.Nothing)) }
        ensures unchanged { OnErr result (self.new ≡ self.old) }
    {
        self.handles.attach(h, name, label, p)
    }
}

fn spot_at(name: &Name, label: &Label) -> Result<Spot, NoMemory>
    ensures { IfOk result (λ d. d ≡ spot name.now label.now) }
{
    let label = label.copy()?;
    Ok(Spot { name: *name, label })
}

fn cannot_write(output: &Label, label: &Label) -> Result<Reply, NoMemory>
    ensures { IfOk result (λ r. r ≡ Reply.CannotWrite output.now label.now) }
{
    let out = output.copy()?;
    let part = label.copy()?;
    Ok(Reply::CannotWrite { out, part })
}
