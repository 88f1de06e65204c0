//! Reading the parts of a handle.

ghost use Rattle.std.specs.Prelude.{◌≡◌, ◌++◌, [], IfOk, IfSome, IsTrue, OnErr, OnOk, option_copied};
ghost use Rattle.df_unit.specs.Rows.{reply};
ghost use Rattle.df_unit.specs.declared.call.Call.{Call};
ghost use Rattle.df_local.specs.Locally.{Answers, IsMadeAlone, shows_one, with_own};
ghost use Rattle.df_local.specs.code.Shown.{brought, holding, privileges_of};

use crate::Local;
use crate::take::is_accepted;
use df_frozen::Name;
use df_handles::shown;
use df_label::Privilege;
use df_memory::NoMemory;
use df_part::Part;
use df_unit::{Call, PartRead, PartsRead, Reply};
use std::alloc::Global;

impl Local {
    /// Reads the visible parts of a name. The unit holds their privileges from now on.
    pub fn read_part(&mut self, h: u32, name: &Name) -> Result<Reply, NoMemory>
        ensures ok { IfOk result (λ r. Answers (Call.ReadPart h name.now) r self.old self.new) }
        ensures unchanged { OnErr result (self.new ≡ self.old) }
    {
        let reply = match self.read_reply(h, name) {
            Ok(reply) => reply,
            Err(refused) => return Err(refused),
        };
        if !is_accepted(&reply) {
            return Ok(reply);
        }
        match self.hold_shown(&reply) {
            Ok(()) => Ok(reply),
            Err(refused) => Err(refused),
        }
    }

    /// The part that a call shows, where it is a read that shows no other, and the part bears no
    /// privilege. The unit stays as it is by such a read. Of which reads a part is told is left
    /// open: `read_part` makes any.
    pub fn seen_alone<'a>(&'a self, call: &'a Call) -> Option<&'a Part>
        ensures { IfSome (option_copied result) (λ part.
            IsMadeAlone call.now (shows_one part) self.now self.now) }
    {
        let Call::ReadPart { h, name } = call else {
            return None;
        };
        let mut parts = self.parts_named(*h, name);
        let part = parts.next()?.part();
        if parts.next().is_some() || !part.privileges.as_slice().is_empty() {
            return None;
        }
        Some(part)
    }

    pub(crate) fn read_reply(&self, h: u32, name: &Name) -> Result<Reply, NoMemory>
        ensures { IfOk result (λ r. r ≡ reply self.now.unit self.now.own []
            (Call.ReadPart h name.now)) }
    {
        let Some(handle) = self.handles.get(h) else {
            return Ok(Reply::NoSuchHandle);
        };
        let shown = shown(self.alloc, &self.reading.input, name, handle)?;
        if shown.is_empty() {
            return Ok(Reply::NoSuchPart);
        }
        Ok(Reply::Parts(PartsRead::new(shown)))
    }

    /// Holds the privileges that a reply shows from now on.
    pub(crate) fn hold_shown(&mut self, reply: &Reply) -> Result<(), NoMemory>
        ensures ok { OnOk result (self.new ≡ with_own self.old
            (holding (brought reply.now) self.old.own)) }
        ensures unchanged { OnErr result (self.new ≡ self.old) }
    {
        let Reply::Parts(shown) = reply else {
            return Ok(());
        };
        if bear_none(shown.as_slice()) {
            return Ok(());
        }
        let all = match privileges_of(self.alloc, shown.as_slice()) {
            Ok(all) => all,
            Err(refused) => return Err(refused),
        };
        self.held.grant_all(all)
    }
}

/// Whether nothing of what is shown bears a privilege.
fn bear_none(shown: &[PartRead]) -> bool
    ensures { IsTrue result → privileges_of shown.now ≡ [] }
{
    for part in shown {
        if !part.privileges.as_slice().is_empty() {
            return false;
        }
    }
    true
}

/// The privileges of what is shown, in order.
fn privileges_of(alloc: Global, shown: &[PartRead]) -> Result<Vec<Privilege>, NoMemory>
    ensures { IfOk result (λ v. v.items ≡ privileges_of shown.now) }
{
    let mut all = Vec::new(alloc);
    for part in shown {
        copy_all(part.privileges.as_slice(), &mut all)?;
    }
    Ok(all)
}

fn copy_all(privileges: &[Privilege], to: &mut Vec<Privilege>) -> Result<(), NoMemory>
    ensures { OnOk result (to.new.items ≡ to.old.items ++ privileges.now) }
{
    for p in privileges {
        to.push(p.copy()?)?;
    }
    Ok(())
}
