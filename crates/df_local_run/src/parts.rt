//! What a run of local calls is made of.

ghost use Rattle.std.specs.Prelude.{◌≡◌, ◌<◌, IfOk, OnErr, OnOk, true, vec_capacity, vec_len};
ghost use Rattle.df_local_run.specs.code.Parts.{IsCalled, IsRun, state_of};
ghost use Rattle.df_local_run.specs.Runs.{called, is_local};

use df_local::Local;
use df_memory::NoMemory;
use df_unit::{Call, Effect, Entry, Reply, UnitName};
use std::mem;

/// What a run is made of.
#[derive(Drop)]
pub struct RunParts {
    pub base: Local,
    /// None where it is as it was.
    pub present: Option<Local>,
    /// The oldest first.
    pub entries: Vec<Entry>,
}

/// The unit's name, and room for its entry.
fn prepare(unit: &Local, entries: &mut Vec<Entry>) -> Result<UnitName, NoMemory>
    ensures actor { IfOk result (λ actor. actor ≡ unit.now.unit) }
    ensures entries { entries.new.items ≡ entries.old.items }
    ensures room { OnOk result (vec_len entries.new < vec_capacity entries.new) }
{
    entries.reserve(1)?;
    unit.name().copy()
}

/// Makes a local call of a unit, and moves it into its entry, which is put behind the others.
fn make(unit: &mut Local, entries: &mut Vec<Entry>, call: &mut Call) -> Result<(), NoMemory>
    requires { is_local call.old ≡ true }
    ensures ok { OnOk result (IsCalled call.old unit.old unit.new entries.old.items
        entries.new.items) }
    ensures unit { OnErr result (unit.new ≡ unit.old) }
    ensures entries { OnErr result (entries.new.items ≡ entries.old.items) }
    ensures call { OnErr result (call.new ≡ call.old) }
{
    let actor = prepare(unit, entries)?;
    let mut reply = Reply::Ok;
    if !unit.make_alone(call, &mut reply)? {
        return Err(NoMemory);
    }
    entries.push_reserved(Entry::Done {
        actor,
        call: mem::replace(call, Call::Get),
        reply,
        effect: Effect::Nothing,
    });
    Ok(())
}

impl RunParts {
    /// The unit as it is now.
    pub(crate) fn present(&self) -> &Local
        ensures { result.now ≡ (state_of self.now).present }
    {
        match &self.present {
            Some(present) => present,
            None => &self.base,
        }
    }

    /// Copies the unit, where it wasn't.
    #[inline(never)]
    fn copy_unit(&mut self) -> Result<(), NoMemory>
        ensures run { IsRun self.old → IsRun self.new }
        ensures state { state_of self.new ≡ state_of self.old }
    {
        if self.present.is_none() {
            self.present = Some(self.base.copy()?);
        }
        Ok(())
    }

    /// Makes one local call more, which is moved into its entry.
    pub(crate) fn call(&mut self, call: &mut Call) -> Result<(), NoMemory>
        requires run { IsRun self.old }
        requires local { is_local call.old ≡ true }
        ensures run { IsRun self.new }
        ensures ok { OnOk result (state_of self.new ≡ called (state_of self.old) call.old) }
        ensures unchanged { OnErr result (state_of self.new ≡ state_of self.old) }
        ensures call { OnErr result (call.new ≡ call.old) }
    {
        let _copied = self.copy_unit();
        match &mut self.present {
            Some(present) => make(present, &mut self.entries, call),
            None => Err(NoMemory),
        }
    }
}
