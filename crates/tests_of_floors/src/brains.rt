//! A brain of a few lines, called through its bound.

ghost use Rattle.std.specs.Prelude.{refl};

use df_brain::{Brain, Last, Want};
use df_memory::NoMemory;
use df_rules::StepFunction;
use df_unit::{Call, Reply};

/// Wants new events for ever.
#[derive(Drop)]
struct Maker {
    sub: u32,
}

impl StepFunction for Maker {
    ghost use Rattle.df_rules.specs.Follows.{Calls};
    ghost use Rattle.df_unit.specs.declared.call.Call.TheVariants.{CreateEvent};

    ghost next = { λ maker _. (Calls CreateEvent, maker) };

    ghost instance = { λ _ sub. record { sub = sub } };
}

impl Brain for Maker {
    fn next(&mut self, _last: &Last) -> Result<Want, NoMemory> {
        Ok(Want::Call(Call::CreateEvent))
    }

    fn instance(&self, sub: u32) -> Result<Maker, NoMemory> {
        Ok(Maker { sub })
    }

    fn copy(&self) -> Result<Maker, NoMemory> {
        Ok(Maker { sub: self.sub })
    }

    fn same(&self, other: &Maker) -> bool {
        self.sub == other.sub
    }

    ghost makes_no_unit = { λ _ _. refl };
}

/// Whether a brain wants to wait.
fn waits<B: Brain>(brain: &mut B, last: &Last) -> Result<bool, NoMemory> {
    let want = brain.next(last)?;
    Ok(want.same(&Want::Wait))
}

/// Whether a copy of a brain is the same.
fn is_copied<B: Brain>(brain: &B) -> Result<bool, NoMemory> {
    let copy = brain.copy()?;
    Ok(copy.same(brain))
}

/// Whether a brain wants to wait; and after that, whether a copy is the same.
fn drive<B: Brain>(mut brain: B, last: &Last) -> Result<(bool, bool), NoMemory> {
    let waits = waits(&mut brain, last)?;
    Ok((waits, is_copied(&brain)?))
}

fn drive_instance(last: &Last) -> Result<(bool, bool), NoMemory> {
    let instance = Maker { sub: 0 }.instance(1)?;
    drive(instance, last)
}

fn is_same_copy(last: &Last) -> Result<bool, NoMemory> {
    let copy = last.copy()?;
    Ok(last.same(&copy))
}

#[test]
fn a_brain_is_driven_through_its_bound(rt: HostRuntime) {
    let last = Last::Reply(Reply::Handle(0));
    assert_eq!(rt; drive(Maker { sub: 0 }, &Last::Start), Ok((false, true)));
    assert_eq!(rt; drive_instance(&last), Ok((false, true)));
    assert_eq!(rt; is_same_copy(&last), Ok(true));
}
