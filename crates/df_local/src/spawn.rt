//! Making units: what a unit is answered that asks for it.

ghost use Rattle.std.specs.Prelude.{◌≡◌, ◌+◌, [], IfOk, OnErr, OnOk};
ghost use Rattle.df_unit.specs.Rows.{reply};
ghost use Rattle.df_unit.specs.declared.call.Call.{Call};
ghost use Rattle.df_local.specs.Locally.{with_own};

use crate::Local;
use crate::limits::{MOST_PATH, MOST_UNITS};
use df_label::{Privileges, TagSet};
use df_memory::NoMemory;
use df_spawn::lacking;
use df_unit::{Reply, UnitName};

impl Local {
    pub(crate) fn spawn_reply(&self, s: &TagSet, privileges: &Privileges) -> Result<Reply, NoMemory>
        ensures { IfOk result (λ r. r ≡ reply self.now.unit self.now.own []
            (Call.Instantiate s.now privileges.now)) }
    {
        let UnitName::Root(path) = &self.name else {
            return Ok(Reply::NotInManaged);
        };
        if path.as_slice().len() >= MOST_PATH {
            return Ok(Reply::TooDeep);
        }
        if self.units >= MOST_UNITS {
            return Ok(Reply::TooManyUnits);
        }
        match lacking(
            &self.reading.input,
            &self.writing.output,
            &self.held,
            s,
            privileges,
        )? {
            None => Ok(Reply::Unit(self.units)),
            Some(q) => Ok(Reply::Lacks(q)),
        }
    }

    pub(crate) fn put_unit(&mut self) -> Result<(), NoMemory>
        ensures ok { OnOk result (self.new ≡ with_own self.old
            (record self.old.own { units = self.old.own.units + 1 })) }
        ensures unchanged { OnErr result (self.new ≡ self.old) }
    {
        if self.units >= MOST_UNITS {
            return Err(NoMemory);
        }
        self.count_unit();
        Ok(())
    }
}
