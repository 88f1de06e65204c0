//! Whether the units of a crew are at rest.

ghost use Rattle.std.specs.Prelude.{◌≡◌, ◌↔◌, IfOk, IsTrue, is_some, true};
ghost use Rattle.df_crew.specs.Resting.{IsResting};
ghost use Rattle.df_machine.specs.Journal.{IsRoll, firsts, local_of};
ghost use Rattle.df_rules.specs.Follows.{Quiet, brain_of};
ghost use Rattle.df_rules.specs.Start.{rows};

use crate::crew::Crew;
use crate::roster::units;
use df_brain::Brain;
use df_memory::NoMemory;
use df_unit::UnitName;

impl<B: Brain> Crew<B> {
    /// Whether a unit waits, and no delivery is left to it.
    fn is_at_rest(&self, unit: &UnitName) -> Result<bool, NoMemory>
        requires { is_some (local_of self.now.core unit.now) ≡ true }
        ensures { IfOk result (λ b.
            IsTrue b ↔ IsResting (brain_of B.next B.instance) self.now unit.now) }
    {
        if self.core().has_delivery(unit) {
            return Ok(false);
        }
        self.mind(unit)?.waits(self.alloc)
    }

    /// Whether each of the units waits, and no delivery is left to it.
    fn are_at_rest(&self, units: &[UnitName]) -> Result<bool, NoMemory>
        requires { IsRoll self.now.core units.now }
        ensures { IfOk result (λ b. IsTrue b ↔ Quiet (brain_of B.next B.instance) rows
            (firsts self.now.core.0) self.now.brains self.now.core.1) }
    {
        for unit in units {
            if !self.is_at_rest(unit)? {
                return Ok(false);
            }
        }
        Ok(true)
    }

    /// Whether each unit waits, and no delivery is left to it. It costs a copy of each unit's
    /// name, and of the brains that are not known to wait.
    pub fn is_quiet(&self) -> Result<bool, NoMemory>
        ensures { IfOk result (λ b. IsTrue b ↔ Quiet (brain_of B.next B.instance) rows
            (firsts self.now.core.0) self.now.brains self.now.core.1) }
    {
        let units = units(self.alloc, self.core())?;
        self.are_at_rest(units.as_slice())
    }
}
