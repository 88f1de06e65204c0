//! A unit that tells one event of one part, and then waits.

ghost use Rattle.std.specs.Prelude.{◌≡◌, ◌↔◌, IfOk, IsTrue, OnErr};
ghost use Rattle.df_brain.specs.Brain.{want_of};
ghost use Rattle.df_rules.specs.Follows.{Calls};
ghost use Rattle.df_unit.specs.declared.call.Call.TheVariants.{AddPart};
ghost use Rattle.tests_of_hubs.specs.Playing.{after, told, wanted};

use df_brain::Want;
use df_frozen::{Frozen, Name, Value};
use df_label::{Label, TagSet};
use df_memory::NoMemory;
use df_unit::Call;
use std::alloc::Global;

/// What a unit that tells does next.
#[derive(Clone, Copy, Debug, PartialEq, Eq)]
pub enum Stage {
    Creates,
    Adds,
    Publishes,
    Waits,
}

impl Stage {
    fn after(self) -> Stage
        ensures { result ≡ after self }
    {
        match self {
            Stage::Creates => Stage::Adds,
            Stage::Adds => Stage::Publishes,
            Stage::Publishes | Stage::Waits => Stage::Waits,
        }
    }
}

/// Tells one event of one part, and then waits.
#[derive(Drop)]
pub struct Teller {
    pub stage: Stage,
    pub label: Label,
    pub name: Name,
    pub value: Frozen,
}

impl Teller {
    pub fn new(alloc: Global, number: i64) -> Result<Teller, NoMemory> {
        let Ok(name) = Name::new("bed") else {
            return Err(NoMemory);
        };
        let Ok(value) = Value::Int(number).freeze(alloc) else {
            return Err(NoMemory);
        };
        let label = Label {
            s: TagSet::new(alloc),
            i: TagSet::new(alloc),
        };
        Ok(Teller {
            stage: Stage::Creates,
            label,
            name,
            value,
        })
    }

    /// The value that it tells, once more.
    fn value(&self) -> Result<Frozen, NoMemory>
        ensures { IfOk result (λ v. v ≡ self.now.value) }
    {
        match self.value.share() {
            Ok(value) => Ok(value),
            Err(_) => Err(NoMemory),
        }
    }

    /// The call that adds the part.
    fn part(&self) -> Result<Want, NoMemory>
        ensures { IfOk result (λ w.
            want_of w ≡ Calls (AddPart 0 self.now.label self.now.name self.now.value)) }
    {
        Ok(Want::Call(Call::AddPart {
            h: 0,
            label: self.label.copy()?,
            name: self.name,
            value: self.value()?,
        }))
    }

    fn want(&self) -> Result<Want, NoMemory>
        ensures { IfOk result (λ w. want_of w ≡ wanted self.now.stage self.now) }
    {
        match self.stage {
            Stage::Creates => Ok(Want::Call(Call::CreateEvent)),
            Stage::Adds => self.part(),
            Stage::Publishes => Ok(Want::Call(Call::Publish { h: 0 })),
            Stage::Waits => Ok(Want::Wait),
        }
    }

    pub(crate) fn next(&mut self) -> Result<Want, NoMemory>
        ensures wants { IfOk result (λ w. (want_of w, self.new) ≡ told self.old) }
        ensures unchanged { OnErr result (self.new ≡ self.old) }
    {
        let want = self.want()?;
        self.stage = self.stage.after();
        Ok(want)
    }

    pub(crate) fn copy(&self) -> Result<Teller, NoMemory>
        ensures { IfOk result (λ t. t ≡ self.now) }
    {
        Ok(Teller {
            stage: self.stage,
            label: self.label.copy()?,
            name: self.name,
            value: self.value()?,
        })
    }

    pub(crate) fn same(&self, other: &Teller) -> bool
        ensures { IsTrue result ↔ (self.now ≡ other.now) }
    {
        self.stage == other.stage
            && self.name == other.name
            && self.label.same(&other.label)
            && self.value.plain_eq(&other.value)
    }
}
