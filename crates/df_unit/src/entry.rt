ghost use Rattle.std.specs.Prelude.{◌≡◌, ◌↔◌, IsTrue};

use crate::{Call, Commit, Given, Reply, UnitName};
use df_label::Label;

/// What a call does beyond the unit that makes it.
#[derive(Drop)]
pub enum Effect {
    Nothing,
    Commit(Commit),
    Given(Given),
}

impl Effect {
    /// Whether the two effects are equal.
    pub fn same(&self, other: &Effect) -> bool
        ensures { IsTrue result ↔ (self.now ≡ other.now) }
    {
        match (self, other) {
            (Effect::Nothing, Effect::Nothing) => true,
            (Effect::Commit(a), Effect::Commit(b)) => a.same(b),
            (Effect::Given(a), Effect::Given(b)) => a.same(b),
            _ => false,
        }
    }
}

/// An entry of a journal: a unit's call with its reply and effect, or a commit of which a purge
/// tells no more.
#[derive(Drop)]
pub enum Entry {
    Done {
        actor: UnitName,
        call: Call,
        reply: Reply,
        effect: Effect,
    },
    Emitted(Commit),
}

impl Entry {
    /// Whether the two entries are equal, values by their plain content.
    pub fn same(&self, other: &Entry) -> bool
        ensures { IsTrue result ↔ (self.now ≡ other.now) }
    {
        match (self, other) {
            (
                Entry::Done {
                    actor,
                    call,
                    reply,
                    effect,
                },
                Entry::Done {
                    actor: other_actor,
                    call: other_call,
                    reply: other_reply,
                    effect: other_effect,
                },
            ) => {
                actor.same(other_actor)
                    && call.same(other_call)
                    && reply.same(other_reply)
                    && effect.same(other_effect)
            }
            (Entry::Emitted(a), Entry::Emitted(b)) => a.same(b),
            _ => false,
        }
    }
}

/// An entry with its actor's contamination before it, where the entry is one of a unit that
/// exists.
#[derive(Drop)]
pub struct Noted {
    pub entry: Entry,
    pub contamination: Option<Label>,
}

impl Noted {
    /// Whether the two entries are equal, and the contaminations before them.
    pub fn same(&self, other: &Noted) -> bool
        ensures { IsTrue result ↔ (self.now ≡ other.now) }
    {
        let is_same_label = match (&self.contamination, &other.contamination) {
            (Some(a), Some(b)) => a.same(b),
            (None, None) => true,
            _ => false,
        };
        is_same_label && self.entry.same(&other.entry)
    }
}
