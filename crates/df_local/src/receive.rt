//! Taking in what is handed to a unit, and counting its subscriptions.

ghost use Rattle.std.specs.Prelude.{◌≡◌, ◌+◌, IfOk, OnErr, OnOk};
ghost use Rattle.df_unit.specs.Rows.{subscribed, taken_in};
ghost use Rattle.df_unit.specs.declared.entry.Effect.{Effect};
ghost use Rattle.df_local.specs.Locally.{CountsSub, TakesIn, viewed, with_own};

use crate::Local;
use crate::limits::MOST_SUBS;
use crate::take::is_accepted;
use df_memory::NoMemory;
use df_unit::{Given, Reply};

impl Local {
    /// Opens a view of an event that was handed to the unit.
    pub fn take_in(&mut self, given: &Given) -> Result<Reply, NoMemory>
        ensures ok { IfOk result (λ r. TakesIn given.now r self.old self.new) }
        ensures unchanged { OnErr result (self.new ≡ self.old) }
    {
        match self.view(given) {
            Ok(Some(h)) => Ok(Reply::Event { h, sub: given.sub }),
            Ok(None) => Ok(Reply::TooManyHandles),
            Err(refused) => Err(refused),
        }
    }

    /// Opens a view of an event that was handed to the unit, and tells its handle; None, and nothing
    /// is done, where no handle more may be opened.
    pub fn view(&mut self, given: &Given) -> Result<Option<u32>, NoMemory>
        ensures ok { IfOk result (λ h. TakesIn given.now (viewed given.now h) self.old self.new) }
        ensures unchanged { OnErr result (self.new ≡ self.old) }
    {
        if self.handles.is_full() {
            return Ok(None);
        }
        let h = self.handles.least_free();
        match self.put_view(given) {
            Ok(()) => Ok(Some(h)),
            Err(refused) => Err(refused),
        }
    }

    /// Opens a view of an event and counts it.
    pub(crate) fn put_view(&mut self, given: &Given) -> Result<(), NoMemory>
        ensures ok { OnOk result (self.new ≡ with_own self.old
            (taken_in (Effect.Given given.now) self.old.own)) }
        ensures unchanged { OnErr result (self.new ≡ self.old) }
    {
        if self.given == u64::MAX {
            return Err(NoMemory);
        }
        let event = given.event.copy()?;
        let seen = given.parts.copy()?;
        self.handles.open_view(event, seen)?;
        self.given += 1;
        Ok(())
    }

    /// Counts one more subscription.
    pub fn count_sub(&mut self) -> Reply
        ensures { CountsSub result self.old self.new }
    {
        let reply = self.sub_reply();
        if is_accepted(&reply) {
            self.subs += 1;
        }
        reply
    }

    pub(crate) fn sub_reply(&self) -> Reply
        ensures { result ≡ subscribed self.now.unit self.now.own }
    {
        if self.is_instance() {
            return Reply::NotInManaged;
        }
        if self.subs >= MOST_SUBS {
            return Reply::TooManySubs;
        }
        Reply::Sub(self.subs)
    }
}
