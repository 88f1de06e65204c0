ghost use Rattle.std.specs.Prelude.{◌≡◌, ◌↔◌, IsTrue, IfOk};

use crate::PartsRead;
use df_label::{Label, Privilege, Tag};
use df_memory::NoMemory;

/// What a call answers. A refusal changes nothing but the journal.
#[derive(Drop)]
pub enum Reply {
    Ok,
    Handle(u32),
    Tag(Tag),
    Sub(u32),
    Unit(u32),
    Event { h: u32, sub: u32 },
    Parts(PartsRead),
    Nothing,
    NoSuchUnit,
    NoSuchHandle,
    NoSuchPart,
    NotDraft,
    NotReceived,
    EmptyEvent,
    NotInManaged,
    TooManyHandles,
    TooManyParts { wanted: u64 },
    TooManySubs,
    TooManyUnits,
    TooDeep,
    Exhausted,
    Lacks(Privilege),
    CannotWrite { out: Label, part: Label },
}

impl Reply {
    /// Whether the two replies are equal, values by their plain content.
    pub fn same(&self, other: &Reply) -> bool
        ensures { IsTrue result ↔ (self.now ≡ other.now) }
    {
        match (self, other) {
            (Reply::Ok, Reply::Ok) => true,
            (Reply::Handle(a), Reply::Handle(b)) => a == b,
            (Reply::Tag(a), Reply::Tag(b)) => a.same(b),
            (Reply::Sub(a), Reply::Sub(b)) => a == b,
            (Reply::Unit(a), Reply::Unit(b)) => a == b,
            (
                Reply::Event { h, sub },
                Reply::Event {
                    h: other_h,
                    sub: other_sub,
                },
            ) => h == other_h && sub == other_sub,
            (Reply::Parts(a), Reply::Parts(b)) => a.same(b),
            (Reply::Nothing, Reply::Nothing) => true,
            (Reply::NoSuchUnit, Reply::NoSuchUnit) => true,
            (Reply::NoSuchHandle, Reply::NoSuchHandle) => true,
            (Reply::NoSuchPart, Reply::NoSuchPart) => true,
            (Reply::NotDraft, Reply::NotDraft) => true,
            (Reply::NotReceived, Reply::NotReceived) => true,
            (Reply::EmptyEvent, Reply::EmptyEvent) => true,
            (Reply::NotInManaged, Reply::NotInManaged) => true,
            (Reply::TooManyHandles, Reply::TooManyHandles) => true,
            (
                Reply::TooManyParts { wanted },
                Reply::TooManyParts {
                    wanted: other_wanted,
                },
            ) => wanted == other_wanted,
            (Reply::TooManySubs, Reply::TooManySubs) => true,
            (Reply::TooManyUnits, Reply::TooManyUnits) => true,
            (Reply::TooDeep, Reply::TooDeep) => true,
            (Reply::Exhausted, Reply::Exhausted) => true,
            (Reply::Lacks(a), Reply::Lacks(b)) => a.same(b),
            (
                Reply::CannotWrite { out, part },
                Reply::CannotWrite {
                    out: other_out,
                    part: other_part,
                },
            ) => out.same(other_out) && part.same(other_part),
            _ => false,
        }
    }

    pub fn copy(&self) -> Result<Reply, NoMemory>
        ensures { IfOk result (λ r. r ≡ self.now) }
    {
        match self {
            Reply::Ok => Ok(Reply::Ok),
            Reply::Handle(h) => Ok(Reply::Handle(*h)),
            Reply::Tag(tag) => Ok(Reply::Tag(tag.copy()?)),
            Reply::Sub(n) => Ok(Reply::Sub(*n)),
            Reply::Unit(n) => Ok(Reply::Unit(*n)),
            Reply::Event { h, sub } => Ok(Reply::Event { h: *h, sub: *sub }),
            Reply::Parts(parts) => Ok(Reply::Parts(parts.copy()?)),
            Reply::Nothing => Ok(Reply::Nothing),
            Reply::NoSuchUnit => Ok(Reply::NoSuchUnit),
            Reply::NoSuchHandle => Ok(Reply::NoSuchHandle),
            Reply::NoSuchPart => Ok(Reply::NoSuchPart),
            Reply::NotDraft => Ok(Reply::NotDraft),
            Reply::NotReceived => Ok(Reply::NotReceived),
            Reply::EmptyEvent => Ok(Reply::EmptyEvent),
            Reply::NotInManaged => Ok(Reply::NotInManaged),
            Reply::TooManyHandles => Ok(Reply::TooManyHandles),
            Reply::TooManyParts { wanted } => Ok(Reply::TooManyParts { wanted: *wanted }),
            Reply::TooManySubs => Ok(Reply::TooManySubs),
            Reply::TooManyUnits => Ok(Reply::TooManyUnits),
            Reply::TooDeep => Ok(Reply::TooDeep),
            Reply::Exhausted => Ok(Reply::Exhausted),
            Reply::Lacks(p) => Ok(Reply::Lacks(p.copy()?)),
            Reply::CannotWrite { out, part } => {
                let out = out.copy()?;
                let part = part.copy()?;
                Ok(Reply::CannotWrite { out, part })
            }
        }
    }
}
