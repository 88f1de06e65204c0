//! What a turn begins from.

ghost use Rattle.std.specs.Prelude.{◌≡◌, ◌↔◌, Err, IfOk, None, false};
ghost use Rattle.df_crew.specs.Locally.{IsBegun};
ghost use Rattle.df_crew.specs.declared.crew.BeginRefused.TheVariants.{NoSuchUnit};
ghost use Rattle.df_machine.specs.Journal.{local_of};
ghost use Rattle.df_rules.specs.Follows.{brain_of};

use crate::crew::{BeginRefused, Crew};
use df_brain::Brain;
use df_local::Local;
use df_memory::NoMemory;
use df_turn::{Mind, Turn};
use df_unit::UnitName;
use std::alloc::Global;

/// What a turn begins from: a copy of its unit, and the unit's brain, which is shared.
#[derive(Drop)]
pub struct Base<B: Brain> {
    pub unit: Local,
    pub mind: Mind<B>,
}

impl<B: Brain> Base<B> {
    /// The turn. Its first local call costs a copy more of the unit.
    pub fn begin(self, alloc: Global) -> Result<Turn<B>, NoMemory>
        ensures { IfOk result (λ t. t ≡ record {
          unit = self.unit;
          state = self.mind.0;
          last = self.mind.1;
          is_ready = false;
        }) }
    {
        let Base { unit, mind } = self;
        Turn::begin(alloc, unit, mind)
    }
}

impl<B: Brain> Crew<B> {
    /// A turn of a unit. It costs a copy of the unit, and its first local call another; its brain is
    /// shared, but for a copy in its first turn.
    pub fn begin(&self, unit: &UnitName) -> Result<Turn<B>, BeginRefused>
        ensures begun { IfOk result (λ t. IsBegun (brain_of B.next B.instance) self.now.brains
            self.now.core unit.now t) }
        ensures absent { (result ≡ Err NoSuchUnit) ↔ (local_of self.now.core unit.now ≡ None) }
    {
        match self.base(unit)?.begin(self.alloc) {
            Ok(turn) => Ok(turn),
            Err(NoMemory) => Err(BeginRefused::NoMemory),
        }
    }
}
