//! A unit's brain as it is kept.

ghost use Rattle.std.specs.Prelude.{◌≡◌, ◌↔◌, IfOk, IsTrue, true};
ghost use Rattle.df_brain.specs.Brain.{last_of};
ghost use Rattle.df_rules.specs.Follows.{Start, Wait};

use crate::shared::Shared;
use df_brain::{Brain, Last, Want};
use df_memory::NoMemory;
use std::alloc::Global;
use std::marker::Model;

/// A unit's brain: the state in which the last `next` whose call was booked left it, and what the
/// following `next` is told. A contract sees it as these two.
#[derive(Drop)]
pub struct Mind<B: Brain> {
    pub(crate) state: Shared<B>,
    pub(crate) last: Last,
    is_waiting: bool,
}

impl<B: Brain> Model for Mind<B> {
    ghost use Rattle.std.specs.Prelude.{◌≡◌, true};
    ghost use Rattle.df_brain.specs.Brain.{last_of};
    ghost use Rattle.df_rules.specs.Follows.{Last as Told, Wait};
    ghost use Rattle.df_turn.specs.Locally.{mind_code};

    ghost Value = { B × Told };

    ghost coded = { mind_code B.code };

    ghost view = { λ m. (m.state, last_of m.last) };

    ghost invariant = { λ m. m.is_waiting ≡ true → (B.next m.state (last_of m.last)).0 ≡ Wait };
}

impl<B: Brain> Mind<B> {
    pub fn new(state: Shared<B>, last: Last) -> Mind<B>
        ensures { result ≡ (state, last_of last) }
    {
        Mind {
            state,
            last,
            is_waiting: false,
        }
    }

    /// The same brain once more; its state isn't copied.
    pub fn share(&self) -> Result<Mind<B>, NoMemory>
        ensures { IfOk result (λ m. m ≡ self.now) }
    {
        Ok(Mind {
            state: self.state.share()?,
            last: self.last.copy()?,
            is_waiting: self.is_waiting,
        })
    }

    /// Whether the two are in one state and are told the same.
    pub fn same(&self, other: &Mind<B>) -> bool
        ensures { IsTrue result ↔ (self.now ≡ other.now) }
    {
        self.last.same(&other.last) && self.state.same(&other.state)
    }

    /// Whether the state is this one, and the unit starts.
    pub fn is_first(&self, state: &B) -> bool
        ensures { IsTrue result ↔ (self.now ≡ (state.now, Start)) }
    {
        self.last.same(&Last::Start) && self.state.state().same(state)
    }

    /// Whether it is known that the unit waits.
    pub fn is_known_to_wait(&self) -> bool
        ensures { result ≡ true → (B.next self.now.0 self.now.1).0 ≡ Wait }
    {
        self.is_waiting
    }

    /// The same brain, of which this is known.
    pub fn known_to_wait(self) -> Mind<B>
        requires { (B.next self.0 self.1).0 ≡ Wait }
        ensures { result ≡ self }
    {
        Mind {
            state: self.state,
            last: self.last,
            is_waiting: true,
        }
    }

    /// Whether the unit waits. It costs a copy of the state, unless this is known.
    pub fn waits(&self, alloc: Global) -> Result<bool, NoMemory>
        ensures { IfOk result (λ b. IsTrue b ↔ ((B.next self.now.0 self.now.1).0 ≡ Wait)) }
    {
        if self.is_waiting {
            return Ok(true);
        }
        let mut state = self.state.share()?;
        match state.next(alloc, &self.last)? {
            Want::Wait => Ok(true),
            Want::Call(_) => Ok(false),
        }
    }
}
