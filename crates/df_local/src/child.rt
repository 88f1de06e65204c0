//! Units that a unit makes.

ghost use Rattle.std.specs.Prelude.{◌≡◌, ◌+◌, ◌<◌, ◌++◌, ◌∷◌, [], IfOk, false, true};
ghost use Rattle.df_label.specs.TagSet.{is_subset};
ghost use Rattle.df_unit.specs.Limits.{most_units};
ghost use Rattle.df_unit.specs.Rows.{is_instance};
ghost use Rattle.df_local.specs.Births.{child_at};
ghost use Rattle.df_local.specs.Locally.{with_own};

use crate::Local;
use crate::local::begun;
use crate::standing::{Reading, Writing};
use df_label::Label;
use df_memory::NoMemory;
use df_priv::Held;
use df_unit::{Path, UnitName};
use std::alloc::Global;

impl Local {
    /// Counts one more unit that the unit made.
    pub fn count_unit(&mut self)
        requires { self.old.own.units < most_units }
        ensures { self.new ≡ with_own self.old
            (record self.old.own { units = self.old.own.units + 1 }) }
    {
        self.units += 1;
    }

    /// The unit's child of this number, with these labels and privileges, as it begins.
    pub fn of_child(
        &self,
        number: u32,
        input: Label,
        output: Label,
        held: Held,
    ) -> Result<Local, NoMemory>
        requires plain { is_instance self.now.unit ≡ false }
        requires reads { is_subset input.s output.s ≡ true }
        requires writes { is_subset self.now.own.output.s output.s ≡ true }
        requires read_integrity { is_subset output.i input.i ≡ true }
        requires written_integrity { is_subset output.i self.now.own.output.i ≡ true }
        ensures { IfOk result (λ l. l ≡ child_at self.now number input output held) }
    {
        let UnitName::Root(path) = &self.name else {
            unreachable!()
        };
        let name = UnitName::Root(path_with(self.alloc, path, number)?);
        let reading = Reading::behind(&self.reading.contamination, input)?;
        let writing = Writing::behind(output, &self.writing.dropped, &self.writing.endorsed)?;
        Ok(begun(self.alloc, name, reading, writing, held))
    }
}

/// The path with a number behind it.
fn path_with(alloc: Global, path: &Path, number: u32) -> Result<Path, NoMemory>
    ensures { IfOk result (λ p. p ≡ path.now ++ number ∷ []) }
{
    let mut numbers = Vec::from_slice(alloc, path.as_slice())?;
    numbers.push(number)?;
    Ok(Path::new(numbers))
}
