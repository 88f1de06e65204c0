//! A brain's state that is shared.

ghost use Rattle.std.specs.Prelude.{◌≡◌, ◌↔◌, IfOk, IsTrue, OnErr};
ghost use Rattle.df_brain.specs.Brain.{last_of, want_of};

use df_brain::{Brain, Last, Want};
use df_memory::NoMemory;
use std::alloc::Global;
use std::marker::Model;
use std::sync::Arc;

/// A brain's state that is shared, which a contract sees as the state.
#[derive(Drop)]
pub struct Shared<B: Brain> {
    state: Arc<B>,
}

impl<B: Brain> Model for Shared<B> {
    ghost use Rattle.std.specs.Arc.{arc_value};

    ghost Value = { B };

    ghost coded = { B.code };

    ghost view = { λ s. arc_value s.state };
}

impl<B: Brain> Shared<B> {
    /// Lets the state go where there is no memory.
    pub fn new(alloc: Global, state: B) -> Result<Shared<B>, NoMemory>
        ensures { IfOk result (λ s. s ≡ state) }
    {
        Ok(Shared {
            state: Arc::new(alloc, state)?,
        })
    }

    /// The same state once more; it isn't copied.
    pub fn share(&self) -> Result<Shared<B>, NoMemory>
        ensures { IfOk result (λ s. s ≡ self.now) }
    {
        Ok(Shared {
            state: Arc::try_clone(&self.state)?,
        })
    }

    pub fn state(&self) -> &B
        ensures { result.now ≡ self.now }
    {
        &self.state
    }

    /// Whether the two states are equal.
    pub fn same(&self, other: &Shared<B>) -> bool
        ensures { IsTrue result ↔ (self.now ≡ other.now) }
    {
        self.state.same(&other.state)
    }

    /// What is wanted next. The state goes on in place where nobody shares it, and else in a copy.
    pub fn next(&mut self, alloc: Global, last: &Last) -> Result<Want, NoMemory>
        ensures wants { IfOk result (λ w.
            (want_of w, self.new) ≡ B.next self.old (last_of last.now)) }
        ensures unchanged { OnErr result (self.new ≡ self.old) }
    {
        if let Some(own) = Arc::get_mut(&mut self.state) {
            return own.next(last);
        }
        self.part(alloc)?;
        match Arc::get_mut(&mut self.state) {
            Some(own) => own.next(last),
            None => self.next_apart(alloc, last),
        }
    }

    /// Makes a copy of the state that nobody shares.
    #[inline(never)]
    fn part(&mut self, alloc: Global) -> Result<(), NoMemory>
        ensures { self.new ≡ self.old }
    {
        self.state = Arc::new(alloc, self.state.copy()?)?;
        Ok(())
    }

    /// What is wanted next, where a copy of the state goes on.
    #[inline(never)]
    fn next_apart(&mut self, alloc: Global, last: &Last) -> Result<Want, NoMemory>
        ensures wants { IfOk result (λ w.
            (want_of w, self.new) ≡ B.next self.old (last_of last.now)) }
        ensures unchanged { OnErr result (self.new ≡ self.old) }
    {
        let mut state = self.state.copy()?;
        let want = state.next(last)?;
        self.state = Arc::new(alloc, state)?;
        Ok(want)
    }
}
