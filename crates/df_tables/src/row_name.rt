//! The name of an event, as its row has it.

ghost use Rattle.std.specs.Prelude.{◌≡◌, IfOk};
ghost use Rattle.df_tables.specs.Events.{root_event};

use df_memory::NoMemory;
use df_unit::EventName;
use std::alloc::Global;
use std::marker::Model;

/// How a name is kept: that of a root's event by the numbers of the root and of the event.
#[derive(Drop)]
enum Kept {
    Numbered(u32, u32),
    Named(Box<EventName>),
}

/// The name of an event in few bytes.
#[derive(Drop)]
pub struct RowName {
    kept: Kept,
}

impl Model for RowName {
    ghost use Rattle.df_tables.specs.RowName.{event_of};
    ghost use Rattle.df_unit.specs.contracts.name.EventName as name;
    ghost use Rattle.df_unit.specs.declared.name.EventName.{EventName};

    ghost Value = { EventName };

    ghost coded = { name.the_row.coded };

    ghost view = { λ n. event_of n.kept };
}

impl RowName {
    /// The name of a root's event. Takes no memory.
    pub(crate) fn numbered(root: u32, number: u32) -> RowName
        ensures { result ≡ root_event root number }
    {
        RowName {
            kept: Kept::Numbered(root, number),
        }
    }

    /// The name of any event.
    pub(crate) fn of(alloc: Global, event: &EventName) -> Result<RowName, NoMemory>
        ensures { IfOk result (λ name. name ≡ event.now) }
    {
        Ok(RowName {
            kept: Kept::Named(Box::new(alloc, event.copy()?)?),
        })
    }
}
