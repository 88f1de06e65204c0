//! Turns, and the passes that are made of them.

ghost use Rattle.std.specs.Prelude.{◌≡◌, IfOk, OnOk, Some, false, length, slice_get, ℕ};
ghost use Rattle.df_plain_floor.specs.Grown.{AreTurns, HasBrain, IsAppending};
ghost use Rattle.df_plain_floor.specs.PlainRun.{IsPass, IsQuiet, IsTurn, is_full, take_turns};
ghost use Rattle.df_rules.specs.Follows.{brain_of};
ghost use Rattle.df_unit.specs.declared.name.UnitName.{UnitName};

use df_brain::Brain;
use df_crew::{Crew, units};
use df_memory::NoMemory;
use df_unit::UnitName;
use std::alloc::Global;

/// How many entries the journal has.
pub(crate) fn entries<B: Brain>(crew: &Crew<B>) -> u64
    ensures { result ≡ length crew.now.core.1 }
{
    crew.core().journal().len() as u64
}

/// Whether the journal has at least so many entries.
fn is_full<B: Brain>(crew: &Crew<B>, max: u64) -> bool
    ensures { result ≡ is_full max crew.now }
{
    max <= entries(crew)
}

/// Gives a unit a turn, unless the journal has so many entries already.
pub(crate) fn take_turn<B: Brain>(
    crew: &mut Crew<B>,
    unit: &UnitName,
    max: u64,
) -> Result<(), NoMemory>
    ensures turn { OnOk result (IsTurn (brain_of B.next B.instance) max unit.now
        crew.old crew.new) }
    ensures brain { OnOk result (HasBrain (brain_of B.next B.instance) max crew.old unit.now) }
    ensures turns { AreTurns (brain_of B.next B.instance) max crew.old crew.new }
{
    if is_full(crew, max) {
        return Ok(());
    }
    crew.take_turn(unit)
}

/// Gives units one turn each, the first one first.
fn take_turns<B: Brain>(crew: &mut Crew<B>, units: &[UnitName], max: u64) -> Result<(), NoMemory>
    ensures taken { OnOk result (crew.new
        ≡ take_turns (brain_of B.next B.instance) max units.now crew.old) }
    ensures brains { OnOk result (crew.new ≡ crew.old → (k : ℕ) (u : UnitName) →
        slice_get units.now k ≡ Some u →
        HasBrain (brain_of B.next B.instance) max crew.old u) }
    ensures turns { AreTurns (brain_of B.next B.instance) max crew.old crew.new }
{
    for unit in units {
        take_turn(crew, unit, max)?;
    }
    Ok(())
}

/// Makes a pass, and answers whether it appended something.
pub(crate) fn pass<B: Brain>(alloc: Global, crew: &mut Crew<B>, max: u64) -> Result<bool, NoMemory>
    ensures pass { OnOk result (IsPass (brain_of B.next B.instance) max crew.old crew.new) }
    ensures appending { IfOk result (λ b. IsAppending max b crew.old crew.new) }
    ensures rest { IfOk result (λ b. b ≡ false → is_full max crew.new ≡ false →
        IsQuiet (brain_of B.next B.instance) crew.new) }
    ensures turns { AreTurns (brain_of B.next B.instance) max crew.old crew.new }
{
    let before = entries(crew);
    let units = units(alloc, crew.core())?;
    take_turns(crew, units.as_slice(), max)?;
    Ok(entries(crew) != before)
}
