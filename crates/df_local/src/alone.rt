//! The calls that a unit makes of its own state alone, answered and taken in at once.

ghost use Rattle.std.specs.Prelude.{◌≡◌, false, IfOk, OnErr};
ghost use Rattle.df_local.specs.Locally.{MakesAlone, told_if};
ghost use Rattle.df_local.specs.code.Edits.{is_edit};
ghost use Rattle.df_unit.specs.declared.reply.Reply.{Reply};

use crate::Local;
use df_memory::NoMemory;
use df_unit::{Call, Reply};

impl Local {
    /// Makes a call that has no effect and needs no more than the unit's own state, and puts what
    /// it is told in place of an Ok; false, and nothing is done, where the call is another.
    pub fn make_alone(&mut self, call: &Call, reply: &mut Reply) -> Result<bool, NoMemory>
        requires { reply.old ≡ Reply.Ok }
        ensures made { IfOk result (λ made. MakesAlone call.now (told_if made reply.new)
            self.old self.new) }
        ensures unchanged { OnErr result (self.new ≡ self.old) }
    {
        match call {
            Call::AddPart {
                h,
                label,
                name,
                value,
            } => {
                self.add_or_refuse(*h, label, name, value, reply)?;
                Ok(true)
            }
            Call::DelPart { h, label, name } => {
                self.del_or_refuse(*h, label, name, reply)?;
                Ok(true)
            }
            _ => self.make_rarer(call, reply),
        }
    }

    /// Makes such a call that neither adds a part nor deletes one.
    #[inline(never)]
    fn make_rarer(&mut self, call: &Call, reply: &mut Reply) -> Result<bool, NoMemory>
        requires { is_edit call.now ≡ false }
        ensures made { IfOk result (λ made. MakesAlone call.now (told_if made reply.new)
            self.old self.new) }
        ensures unchanged { OnErr result (self.new ≡ self.old) }
    {
        let made = match call {
            Call::CreateEvent => self.create_event(),
            Call::ReadPart { h, name } => self.read_part(*h, name),
            Call::CloneEvent { h, label } => self.clone_event(*h, label),
            Call::AttachPrivilege { h, label, name, p } => {
                self.attach_privilege(*h, label, name, p)
            }
            Call::ChangeOutLabel { half, act, tag } => self.change_out_label(*half, *act, tag),
            Call::CreateTag => self.create_tag(),
            Call::DropEvent { h } => self.drop_event(*h),
            _ => return Ok(false),
        };
        match made {
            Ok(told) => {
                *reply = told;
                Ok(true)
            }
            Err(refused) => Err(refused),
        }
    }
}
