//! The units of a machine, in their order.

ghost use Rattle.std.specs.Prelude.{IfOk};
ghost use Rattle.df_machine.specs.Journal.{IsRoll};

use df_machine::Core;
use df_memory::NoMemory;
use df_unit::UnitName;
use std::alloc::Global;

/// The units that exist, in their order.
pub fn units(alloc: Global, core: &Core) -> Result<Vec<UnitName>, NoMemory>
    ensures { IfOk result (λ units. IsRoll core.now units.items) }
{
    let mut units: Vec<UnitName> = Vec::new(alloc);
    while let Some(unit) = core.unit_at(units.as_slice().len()) {
        units.push(unit.copy()?)?;
    }
    Ok(units)
}
