//! A turn under way: a unit's local calls, made by its brain.

ghost use Rattle.std.specs.Prelude.{◌≡◌, ◌<◌, ◌∷◌, [], IfOk, OnErr, OnOk, length, true};
ghost use Rattle.df_brain.specs.Brain.{last_of};
ghost use Rattle.df_brain.specs.declared.want.Want.TheVariants.{Wait};
ghost use Rattle.df_rules.specs.Follows.{Last as Told, brain_of};
ghost use Rattle.df_turn.specs.Locally.{most_local, ready_from};
ghost use Rattle.df_turn.specs.code.Going.{IsEnded, IsGoing, IsSettled, IsTaken, goes_on, led, steps_left, steps_made, told_behind};
ghost use Rattle.df_turn.specs.declared.stage.Stage.TheVariants.{Answered, Wants};
ghost use Rattle.df_unit.specs.declared.entry.Entry.{Entry};

use crate::mind::Mind;
use crate::ready::Ready;
use crate::shared::Shared;
use crate::stage::Stage;
use df_brain::{Brain, Last, Want};
use df_local::Local;
use df_local_run::LocalRun;
use df_memory::NoMemory;
use df_unit::Entry;
use std::alloc::Global;
use std::mem;

// The most local calls of a turn.
const MOST_LOCAL: usize = 1_024;

/// The local calls so far, the brain's state, and what the brain does next.
#[derive(Drop)]
pub struct Going<B: Brain> {
    pub run: LocalRun,
    pub state: Shared<B>,
    pub stage: Stage,
}

/// Tells a brain the reply of its entry, and answers what it is told next.
fn tell<B: Brain>(
    alloc: Global,
    state: &mut Shared<B>,
    last: Last,
    entry: &Entry,
) -> Result<Last, NoMemory>
    ensures { IfOk result (λ l. (state.new, last_of l)
        ≡ led (brain_of B.next B.instance) (entry.now ∷ []) (state.old, last_of last)) }
{
    match entry {
        Entry::Done { reply, .. } => {
            let _want = state.next(alloc, &last)?;
            Ok(Last::Reply(reply.copy()?))
        }
        Entry::Emitted { .. } => Ok(last),
    }
}

/// Tells a brain the replies of its entries in turn, and answers what it is told next.
fn tell_all<B: Brain>(
    alloc: Global,
    state: &mut Shared<B>,
    mut last: Last,
    entries: &[Entry],
) -> Result<Last, NoMemory>
    ensures { IfOk result (λ l. (state.new, last_of l)
        ≡ led (brain_of B.next B.instance) entries.now (state.old, last_of last)) }
{
    for entry in entries {
        last = tell(alloc, state, last, entry)?;
    }
    Ok(last)
}

impl<B: Brain> Going<B> {
    /// A turn without calls. The brain's state is shared.
    pub(crate) fn begin(alloc: Global, unit: Local, mind: &Mind<B>) -> Result<Going<B>, NoMemory>
        ensures unit { IfOk result (λ g. g.run.base ≡ unit) }
        ensures going { IfOk result (λ g. IsGoing (brain_of B.next B.instance) mind.now g) }
    {
        let state = mind.state.share()?;
        let last = mind.last.copy()?;
        let run = LocalRun::begin(alloc, unit)?;
        Ok(Going {
            run,
            state,
            stage: Stage::Told(last),
        })
    }

    /// A turn of a unit with this brain, whose local calls are made. It costs a copy of the unit,
    /// and its first local call another.
    pub fn advanced(alloc: Global, unit: &Local, mind: &Mind<B>) -> Result<Going<B>, NoMemory>
        ensures unit { IfOk result (λ g. g.run.base ≡ unit.now) }
        ensures going { IfOk result (λ g. IsGoing (brain_of B.next B.instance) mind.now g) }
        ensures ended { IfOk result (λ g. IsEnded g) }
    {
        let mut going = Going::begin(alloc, unit.copy()?, mind)?;
        match going.go_on(alloc) {
            Ok(()) => Ok(going),
            Err(NoMemory) => {
                going.let_go();
                Err(NoMemory)
            }
        }
    }

    /// Lets the turn go, one part after the other.
    pub fn let_go(self) {
        let Going { run, state, stage } = self;
        drop(state);
        drop(stage);
        run.let_go();
    }

    /// The reply to the newest call, which the brain is told.
    fn newest(&self) -> Result<Last, NoMemory>
        ensures { IfOk result (λ l. last_of l ≡ told_behind self.now.run.entries) }
    {
        match self.run.entries().last() {
            Some(Entry::Done { reply, .. }) => Ok(Last::Reply(reply.copy()?)),
            _ => Ok(Last::Start),
        }
    }

    /// Asks the brain, which is told what it is to be told first.
    #[inline(never)]
    fn ask_first(&mut self, alloc: Global) -> Result<(), NoMemory>
        requires few { length self.old.run.entries < most_local }
        requires told { steps_made self.old.stage ≡ 0 }
        ensures run { self.new.run ≡ self.old.run }
        ensures going { (m : B × Told) → IsGoing (brain_of B.next B.instance) m self.old →
            IsGoing (brain_of B.next B.instance) m self.new }
        ensures wants { OnOk result (steps_made self.new.stage ≡ 1) }
    {
        let Stage::Told(last) = &self.stage else {
            return self.ask_on(alloc);
        };
        let want = self.state.next(alloc, last)?;
        self.stage = Stage::Wants(want);
        Ok(())
    }

    /// Asks the brain, which is told the reply to the newest call.
    #[inline(never)]
    fn ask_on(&mut self, alloc: Global) -> Result<(), NoMemory>
        requires few { length self.old.run.entries < most_local }
        requires answered { self.old.stage ≡ Answered }
        ensures run { self.new.run ≡ self.old.run }
        ensures going { (m : B × Told) → IsGoing (brain_of B.next B.instance) m self.old →
            IsGoing (brain_of B.next B.instance) m self.new }
        ensures wants { OnOk result (steps_made self.new.stage ≡ 1) }
    {
        let last = self.newest()?;
        let want = self.state.next(alloc, &last)?;
        self.stage = Stage::Wants(want);
        Ok(())
    }

    /// Makes the local call that is wanted.
    #[inline(never)]
    fn make(&mut self) -> Result<(), NoMemory>
        requires goes_on { goes_on self.old.stage ≡ true }
        requires wants { steps_made self.old.stage ≡ 1 }
        ensures taken { OnOk result (IsTaken self.old.run self.new.run self.old.stage) }
        ensures stage { OnOk result (self.new.stage ≡ Answered) }
        ensures state { self.new.state ≡ self.old.state }
        ensures unchanged { OnErr result (self.new ≡ self.old) }
    {
        let wanted = mem::replace(&mut self.stage, Stage::Answered);
        let Stage::Wants(Want::Call(mut call)) = wanted else {
            unreachable!()
        };
        match self.run.call(&mut call) {
            Ok(()) => Ok(()),
            Err(NoMemory) => {
                self.stage = Stage::Wants(Want::Call(call));
                Err(NoMemory)
            }
        }
    }

    /// Asks the brain, or makes the local call that it wants.
    fn step(&mut self, alloc: Global) -> Result<(), NoMemory>
        requires few { length self.old.run.entries < most_local }
        requires goes_on { goes_on self.old.stage ≡ true }
        ensures base { self.new.run.base ≡ self.old.run.base }
        ensures going { (m : B × Told) → IsGoing (brain_of B.next B.instance) m self.old →
            IsGoing (brain_of B.next B.instance) m self.new }
        ensures fewer { OnOk result (steps_left self.new < steps_left self.old) }
    {
        match &self.stage {
            Stage::Told(_) => self.ask_first(alloc),
            Stage::Answered => self.ask_on(alloc),
            Stage::Wants(_) => self.make(),
        }
    }

    /// Has the brain be told the reply to the newest call, where it is to be.
    fn settle(&mut self) -> Result<(), NoMemory>
        ensures run { self.new.run ≡ self.old.run }
        ensures going { (m : B × Told) → IsGoing (brain_of B.next B.instance) m self.old →
            IsGoing (brain_of B.next B.instance) m self.new }
        ensures same { goes_on self.new.stage ≡ goes_on self.old.stage }
        ensures settled { OnOk result (IsSettled self.new.stage) }
    {
        if let Stage::Answered = &self.stage {
            self.stage = Stage::Told(self.newest()?);
        }
        Ok(())
    }

    /// Makes the local calls that are wanted. Where there is no memory, some are made.
    pub(crate) fn go_on(&mut self, alloc: Global) -> Result<(), NoMemory>
        ensures base { self.new.run.base ≡ self.old.run.base }
        ensures going { (m : B × Told) → IsGoing (brain_of B.next B.instance) m self.old →
            IsGoing (brain_of B.next B.instance) m self.new }
        ensures ended { OnOk result ((m : B × Told) →
            IsGoing (brain_of B.next B.instance) m self.old → IsEnded self.new) }
    {
        while self.run.entries().len() < MOST_LOCAL && self.stage.goes_on() {
            self.step(alloc)?;
        }
        self.settle()
    }

    /// How the turn ends, once no local call is left to make.
    pub(crate) fn ready(&self) -> Ready
        ensures { (m : B × Told) → IsGoing (brain_of B.next B.instance) m self.now →
            IsEnded self.now →
            result ≡ ready_from (brain_of B.next B.instance) most_local self.now.run.base m.0 m.1 }
    {
        match &self.stage {
            Stage::Told(_) => Ready::Long,
            Stage::Answered => Ready::Long,
            Stage::Wants(want) => match want {
                Want::Call(_) => Ready::Shared,
                Want::Wait => Ready::Waiting,
            },
        }
    }

    /// The brain just before it waits: the turn's first brain after the replies of the local
    /// calls. It costs a copy of its state where there are any.
    pub fn resting(&self, alloc: Global, base: &Mind<B>) -> Result<Mind<B>, NoMemory>
        requires going { IsGoing (brain_of B.next B.instance) base.now self.now }
        requires waits { self.now.stage ≡ Wants Wait }
        ensures { IfOk result (λ m.
            m ≡ led (brain_of B.next B.instance) self.now.run.entries base.now) }
    {
        let mut state = base.state.share()?;
        let last = base.last.copy()?;
        let last = tell_all(alloc, &mut state, last, self.run.entries())?;
        Ok(Mind::new(state, last).known_to_wait())
    }
}
