//! The units to which a commit would be handed.

ghost use Rattle.std.specs.Prelude.{◌≡◌, ◌++◌, IfOk, OnOk};
ghost use Rattle.df_tables.specs.Births.{rows_in};
ghost use Rattle.df_tables.specs.Board.{AreReceivers, IsBoard, IsKept, receivers_of};
ghost use Rattle.df_tables.specs.Calls.{name_at, names_at};
ghost use Rattle.df_tables.specs.Table.{names_of};

use crate::births::Newborn;
use crate::board::Board;
use crate::commits::Ready;
use crate::units::Unit;
use df_memory::NoMemory;
use df_unit::{Commit, UnitName};
use std::alloc::Global;

/// Appends the unit of the row at a place, if there is one.
fn put_name(rows: &[Unit], place: usize, to: &mut Vec<UnitName>) -> Result<(), NoMemory>
    ensures { OnOk result (to.new.items ≡ to.old.items ++ name_at rows.now place) }
{
    match rows.get(place) {
        Some(unit) => to.push(unit.local.name().copy()?)?,
        None => {}
    }
    Ok(())
}

/// Appends the units whose rows are about to come.
fn put_names(born: &[Newborn], to: &mut Vec<UnitName>) -> Result<(), NoMemory>
    ensures { OnOk result (to.new.items ≡ to.old.items ++ names_of (rows_in born.now)) }
{
    for one in born {
        to.push(one.row.local.name().copy()?)?;
    }
    Ok(())
}

/// The units to whom a commit is to be handed that was made ready.
fn names_in(alloc: Global, rows: &[Unit], ready: &Ready) -> Result<Vec<UnitName>, NoMemory>
    ensures { IfOk result (λ names. names.items
        ≡ names_at rows.now (receivers_of ready.now)
        ++ names_of (rows_in ready.now.called.born.items)) }
{
    let mut names = Vec::new(alloc);
    for receiver in ready.receivers() {
        put_name(rows, receiver.0, &mut names)?;
    }
    put_names(ready.called.born.as_slice(), &mut names)?;
    Ok(names)
}

impl Board {
    /// The units to which a commit would be handed now, each once for each of its subscriptions
    /// that it reaches. What the tables tell stays.
    pub fn receivers(&mut self, commit: &Commit) -> Result<Vec<UnitName>, NoMemory>
        requires { IsBoard self.old }
        ensures board { IsBoard self.new }
        ensures kept { IsKept self.old self.new }
        ensures exact { IfOk result (λ names. AreReceivers commit.now names.items self.old) }
    {
        let ready = self.open(commit)?;
        names_in(self.alloc, self.rows.as_slice(), &ready)
    }
}
