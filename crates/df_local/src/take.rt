//! Taking a call in, once its reply and effect are known.

ghost use Rattle.std.specs.Prelude.{◌≡◌, OnErr, OnOk};
ghost use Rattle.df_unit.specs.Rows.{after, is_accepted, taken_in};
ghost use Rattle.df_local.specs.Locally.{IsAnswer, with_own};

use crate::Local;
use df_memory::NoMemory;
use df_unit::{Call, Effect, Reply};

impl Local {
    /// Takes a call in, with the reply and the effect that its row gives. A refused call changes
    /// nothing. Where the count of deliveries stands at its greatest, that is NoMemory.
    pub fn take(&mut self, call: &Call, reply: &Reply, effect: &Effect) -> Result<(), NoMemory>
        requires right { IsAnswer self.old call.now reply.now effect.now }
        ensures ok { OnOk result (self.new ≡ with_own self.old
            (after self.old.unit self.old.own call.now reply.now effect.now)) }
        ensures unchanged { OnErr result (self.new ≡ self.old) }
    {
        if !is_accepted(reply) {
            return Ok(());
        }
        match call {
            Call::CreateEvent => self.put_empty(),
            Call::AddPart {
                h,
                label,
                name,
                value,
            } => self.put_part(*h, label, name, value),
            Call::DelPart { h, label, name } => self.put_deleted(*h, label, name),
            Call::ReadPart { .. } => self.hold_shown(reply),
            Call::CloneEvent { h, label } => self.put_clone(*h, label),
            Call::AttachPrivilege { h, label, name, p } => self.put_attached(*h, label, name, p),
            Call::ChangeOutLabel { half, act, tag } => self.put_out(*half, *act, tag),
            Call::CreateTag => self.put_tag(),
            Call::Subscribe { .. } | Call::SubscribeManaged { .. } => {
                let _reply = self.count_sub();
                Ok(())
            }
            Call::Get => self.put_given(effect),
            Call::DropEvent { h } | Call::Publish { h } | Call::Release { h } => {
                self.shut(*h);
                Ok(())
            }
            Call::ChangeInOut { half, act, tag } => self.put_in_out(*half, *act, tag),
            Call::Instantiate { .. } => self.put_unit(),
        }
    }

    fn put_given(&mut self, effect: &Effect) -> Result<(), NoMemory>
        ensures ok { OnOk result (self.new ≡ with_own self.old (taken_in effect.now self.old.own)) }
        ensures unchanged { OnErr result (self.new ≡ self.old) }
    {
        match effect {
            Effect::Given(given) => self.put_view(given),
            _ => Ok(()),
        }
    }
}

/// Whether the reply is no refusal.
pub fn is_accepted(reply: &Reply) -> bool
    ensures { result ≡ is_accepted reply.now }
{
    matches!(
        reply,
        Reply::Ok
            | Reply::Handle(_)
            | Reply::Tag(_)
            | Reply::Sub(_)
            | Reply::Unit(_)
            | Reply::Event { .. }
            | Reply::Parts(_)
    )
}
