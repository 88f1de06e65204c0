//! What a call is answered, before anything moves.

ghost use Rattle.std.specs.Prelude.{◌≡◌, [], IfOk, option_copied, option_to_list};
ghost use Rattle.df_unit.specs.Rows.{effect, reply};
ghost use Rattle.df_unit.specs.declared.call.Call.{Call};
ghost use Rattle.df_unit.specs.declared.entry.Effect.{Effect};
ghost use Rattle.df_unit.specs.declared.reply.Reply.{Reply};
ghost use Rattle.df_local.specs.Locally.{closing};

use crate::Local;
use crate::close::{Close, publish_answer, release_answer};
use df_memory::NoMemory;
use df_unit::{Call, Effect, Given, Reply};

/// What a call is answered, and what it does beyond the unit.
#[derive(Drop)]
pub struct Answer {
    pub reply: Reply,
    pub effect: Effect,
}

/// An answer without effect.
pub(crate) fn quiet(told: Reply) -> Answer
    ensures { result ≡ record { reply = told; effect = Effect.Nothing } }
{
    Answer {
        reply: told,
        effect: Effect::Nothing,
    }
}

impl Local {
    /// What a call is answered where this delivery is the first that is left. Changes nothing.
    pub fn answer(&self, next: Option<&Given>, call: &Call) -> Result<Answer, NoMemory>
        ensures reply { IfOk result (λ a. a.reply ≡ reply self.now.unit self.now.own
            (option_to_list (option_copied next.entry)) call.now) }
        ensures effect { IfOk result (λ a. a.effect ≡ effect self.now.unit self.now.own
            (option_to_list (option_copied next.entry)) call.now) }
    {
        match call {
            Call::CreateEvent => Ok(quiet(self.create_reply())),
            Call::AddPart { h, .. } => Ok(quiet(self.add_reply(*h))),
            Call::DelPart { h, label, name } => Ok(quiet(self.del_reply(*h, label, name)?)),
            Call::ReadPart { h, name } => Ok(quiet(self.read_reply(*h, name)?)),
            Call::CloneEvent { h, label } => Ok(quiet(self.clone_reply(*h, label)?)),
            Call::AttachPrivilege { h, label, name, p } => {
                Ok(quiet(self.attach_reply(*h, label, name, p)?))
            }
            Call::ChangeOutLabel { act, tag, .. } => Ok(quiet(self.out_reply(*act, tag)?)),
            Call::CreateTag => Ok(quiet(self.tag_reply()?)),
            Call::DropEvent { h } => Ok(quiet(self.drop_reply(*h))),
            Call::Subscribe { .. } | Call::SubscribeManaged { .. } => Ok(quiet(self.sub_reply())),
            Call::Get => self.get_answer(next),
            Call::Publish { h } => self.closing_answer(*h, Close::Publish),
            Call::Release { h } => self.closing_answer(*h, Close::Release),
            Call::ChangeInOut { act, tag, .. } => Ok(quiet(self.in_out_reply(*act, tag)?)),
            Call::Instantiate { s, privileges } => Ok(quiet(self.spawn_reply(s, privileges)?)),
        }
    }

    fn get_answer(&self, next: Option<&Given>) -> Result<Answer, NoMemory>
        ensures reply { IfOk result (λ a. a.reply ≡ reply self.now.unit self.now.own
            (option_to_list (option_copied next.entry)) Call.Get) }
        ensures effect { IfOk result (λ a. a.effect ≡ effect self.now.unit self.now.own
            (option_to_list (option_copied next.entry)) Call.Get) }
    {
        let Some(given) = next else {
            return Ok(quiet(Reply::Nothing));
        };
        if self.handles.is_full() {
            return Ok(quiet(Reply::TooManyHandles));
        }
        let h = self.handles.least_free();
        let copy = given.copy()?;
        Ok(Answer {
            reply: Reply::Event { h, sub: given.sub },
            effect: Effect::Given(copy),
        })
    }

    #[inline(always)]
    fn closing_answer(&self, h: u32, how: Close) -> Result<Answer, NoMemory>
        ensures reply { IfOk result (λ a. a.reply ≡ reply self.now.unit self.now.own []
            (closing how h)) }
        ensures effect { IfOk result (λ a. a.effect ≡ effect self.now.unit self.now.own []
            (closing how h)) }
    {
        let Some(handle) = self.handles.get(h) else {
            return Ok(quiet(Reply::NoSuchHandle));
        };
        match how {
            Close::Publish => publish_answer(self.alloc, &self.writing.output, handle),
            Close::Release => release_answer(self.alloc, &self.writing.output, handle),
        }
    }
}
