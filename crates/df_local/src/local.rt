//! A unit with its own state, and what others may read of it.

ghost use Rattle.std.specs.Prelude.{◌≡◌, IfOk, min};
ghost use Rattle.df_priv.specs.Held.{holds};
ghost use Rattle.df_unit.specs.Beginnings.{beginning};
ghost use Rattle.df_unit.specs.Handles.{open_count};
ghost use Rattle.df_unit.specs.KeptFact.{AreAccounted};
ghost use Rattle.df_unit.specs.Rows.{is_instance};
ghost use Rattle.df_local.specs.Locally.{root_at};

use crate::standing::{Reading, Writing};
use df_handles::Handles;
use df_label::{Label, Privilege, Privileges, TagSet};
use df_memory::NoMemory;
use df_priv::Held;
use df_unit::{Path, UnitName};
use std::alloc::Global;
use std::marker::Model;

/// A unit: its name and its own state. A contract sees the state as the call table does.
#[derive(Drop)]
pub struct Local {
    pub(crate) name: UnitName,
    pub(crate) reading: Reading,
    pub(crate) writing: Writing,
    pub(crate) held: Held,
    pub(crate) handles: Handles,
    pub(crate) given: u64,
    pub(crate) events: u32,
    pub(crate) tags: u32,
    pub(crate) subs: u32,
    pub(crate) units: u32,
    pub(crate) alloc: Global,
}

impl Model for Local {
    ghost use Rattle.df_unit.specs.KeptFact.{AreAccounted};
    ghost use Rattle.df_local.specs.code.LocalState.{LocalState, local_code};

    ghost Value = { LocalState };

    ghost coded = { local_code };

    ghost view = { λ l. record {
      unit = l.name;
      own = record {
        input = l.reading.input;
        output = l.writing.output;
        contamination = l.reading.contamination;
        dropped = l.writing.dropped;
        endorsed = l.writing.endorsed;
        held = l.held;
        events = l.events;
        tags = l.tags;
        subs = l.subs;
        units = l.units;
        given = l.given;
        handles = l.handles;
      };
    } };

    ghost invariant = { λ l. AreAccounted l.reading.input l.writing.output l.reading.contamination
        l.writing.dropped l.writing.endorsed };
}

/// A unit that begins with these labels and privileges. Takes no memory.
pub(crate) fn begun(
    alloc: Global,
    name: UnitName,
    reading: Reading,
    writing: Writing,
    held: Held,
) -> Local
    requires { AreAccounted reading.input writing.output reading.contamination
        writing.dropped writing.endorsed }
    ensures { result ≡ record {
      unit = name;
      own = beginning reading.input writing.output reading.contamination
          writing.dropped writing.endorsed held;
    } }
{
    Local {
        name,
        reading,
        writing,
        held,
        handles: Handles::new(alloc),
        given: 0,
        events: 0,
        tags: 0,
        subs: 0,
        units: 0,
        alloc,
    }
}

impl Local {
    /// A root as it begins.
    pub fn of_root(
        alloc: Global,
        number: u32,
        label: Label,
        privileges: Privileges,
    ) -> Result<Local, NoMemory>
        ensures { IfOk result (λ l. l ≡ root_at number label privileges) }
    {
        let reading = Reading::at(&label)?;
        let writing = Writing::at(alloc, label);
        let name = UnitName::Root(Path::root(number));
        Ok(begun(alloc, name, reading, writing, Held::from(privileges)))
    }

    pub fn name(&self) -> &UnitName
        ensures { result.now ≡ self.now.unit }
    {
        &self.name
    }

    pub fn input(&self) -> &Label
        ensures { result.now ≡ self.now.own.input }
    {
        &self.reading.input
    }

    pub fn output(&self) -> &Label
        ensures { result.now ≡ self.now.own.output }
    {
        &self.writing.output
    }

    pub fn contamination(&self) -> &Label
        ensures { result.now ≡ self.now.own.contamination }
    {
        &self.reading.contamination
    }

    pub fn dropped(&self) -> &TagSet
        ensures { result.now ≡ self.now.own.dropped }
    {
        &self.writing.dropped
    }

    pub fn endorsed(&self) -> &TagSet
        ensures { result.now ≡ self.now.own.endorsed }
    {
        &self.writing.endorsed
    }

    pub fn holds(&self, p: &Privilege) -> bool
        ensures { result ≡ holds self.now.own.held p.now }
    {
        self.held.holds(p)
    }

    pub fn held(&self) -> &Held
        ensures { result.now ≡ self.now.own.held }
    {
        &self.held
    }

    pub fn events_made(&self) -> u32
        ensures { result ≡ self.now.own.events }
    {
        self.events
    }

    pub fn tags_made(&self) -> u32
        ensures { result ≡ self.now.own.tags }
    {
        self.tags
    }

    pub fn subs_made(&self) -> u32
        ensures { result ≡ self.now.own.subs }
    {
        self.subs
    }

    pub fn units_made(&self) -> u32
        ensures { result ≡ self.now.own.units }
    {
        self.units
    }

    /// How many handles are open. A count past the greatest `u32` is told as that.
    pub fn handles_used(&self) -> u32
        ensures { result ≡ min (open_count self.now.own.handles) 4294967295 }
    {
        let count = self.handles.count();
        u32::try_from(count).unwrap_or(u32::MAX)
    }

    /// Whether the unit is the instance of a managed subscription.
    pub fn is_instance(&self) -> bool
        ensures { result ≡ is_instance self.now.unit }
    {
        matches!(&self.name, UnitName::Managed { .. })
    }
}
