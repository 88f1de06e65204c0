ghost use Rattle.std.specs.Prelude.{◌≡◌, ◌↔◌, IsTrue, IfOk};

use crate::EventName;
use df_memory::NoMemory;
use df_part::{Edit, Parts};

/// An edit of one event, made at once.
#[derive(Drop)]
pub struct Commit {
    pub event: EventName,
    pub edit: Edit,
}

impl Commit {
    /// Whether the two make the same edit of the same event.
    pub fn same(&self, other: &Commit) -> bool
        ensures { IsTrue result ↔ (self.now ≡ other.now) }
    {
        self.event.same(&other.event) && self.edit.same(&other.edit)
    }
}

/// An event that is handed to a unit: for which subscription, and with which parts.
#[derive(Drop)]
pub struct Given {
    pub event: EventName,
    pub sub: u32,
    pub parts: Parts,
}

impl Given {
    /// Whether the two hand over the same event, for the same subscription and with the same parts.
    pub fn same(&self, other: &Given) -> bool
        ensures { IsTrue result ↔ (self.now ≡ other.now) }
    {
        self.sub == other.sub && self.event.same(&other.event) && self.parts.same(&other.parts)
    }

    pub fn copy(&self) -> Result<Given, NoMemory>
        ensures { IfOk result (λ d. d ≡ self.now) }
    {
        let event = self.event.copy()?;
        let parts = self.parts.copy()?;
        Ok(Given {
            event,
            sub: self.sub,
            parts,
        })
    }
}
