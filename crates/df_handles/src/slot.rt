//! The place of a handle.

ghost use Rattle.std.specs.Prelude.{◌≡◌, [], None, OnErr, OnOk, Some, false, option_copied, option_map, true};
ghost use Rattle.df_unit.specs.Drafts.{attached_in, deleted_in, spot};
ghost use Rattle.df_unit.specs.declared.entry.Effect.{Effect};
ghost use Rattle.df_handles.specs.Commits.{commit_of, committed, deletions};
ghost use Rattle.df_handles.specs.code.Slot.{begun, drafted_in, event_of, shown};

use crate::edits::{attach_in, delete_in};
use crate::parts::taken_out;
use df_frozen::Name;
use df_label::{Label, Privilege};
use df_memory::NoMemory;
use df_part::{Edit, PartRef, Parts, Spot};
use df_unit::{Commit, Drafts, Effect, EventName, Handle, Path, Spots, UnitName};
use std::alloc::Global;
use std::mem;

/// A place: an open handle, or the room that a closed one has left for the next.
#[derive(Drop)]
pub struct Slot {
    pub is_open: bool,
    pub kept: Option<Handle>,
}

impl Slot {
    /// The place of an open handle.
    pub fn of(handle: Handle) -> Slot
        ensures { shown result ≡ Some handle }
    {
        Slot {
            is_open: true,
            kept: Some(handle),
        }
    }

    /// The open handle.
    pub fn get(&self) -> Option<&Handle>
        ensures { option_copied result ≡ shown self.now }
    {
        if self.is_open {
            self.kept.as_ref()
        } else {
            None
        }
    }

    /// Opens a handle.
    pub fn hold(&mut self, handle: Handle)
        ensures { shown self.new ≡ Some handle }
    {
        self.is_open = true;
        self.kept = Some(handle);
    }

    /// Opens a view in the room of the handle before.
    pub fn begin_view(&mut self, alloc: Global, event: EventName, seen: Parts)
        ensures { shown self.new ≡ Some (begun true event seen) }
    {
        self.is_open = true;
        match &mut self.kept {
            Some(handle) => {
                handle.is_view = true;
                handle.event = event;
                handle.seen = seen;
                handle.named.clear();
                handle.drafted.clear();
            }
            None => self.keep(alloc, true, event, seen),
        }
    }

    /// Opens a draft of a unit's event in the room of the handle before.
    pub fn begin_draft(
        &mut self,
        alloc: Global,
        unit: &UnitName,
        number: u32,
    ) -> Result<(), NoMemory>
        ensures ok { OnOk result (shown self.new ≡ Some (begun false (event_of unit.now number) [])) }
        ensures unchanged { OnErr result (shown self.new ≡ shown self.old) }
    {
        match &mut self.kept {
            Some(handle) => {
                match handle.event.unit.copy_from(unit) {
                    Ok(()) => {}
                    Err(refused) => return Err(refused),
                }
                handle.event.number = number;
                handle.is_view = false;
                handle.seen = Parts::new(Vec::new(alloc));
                handle.named.clear();
                handle.drafted.clear();
            }
            None => match self.keep_draft(alloc, unit, number) {
                Ok(()) => {}
                Err(refused) => return Err(refused),
            },
        }
        self.is_open = true;
        Ok(())
    }

    /// Makes the room of a place and a draft in it.
    #[inline(never)]
    fn keep_draft(&mut self, alloc: Global, unit: &UnitName, number: u32) -> Result<(), NoMemory>
        ensures kept { OnOk result (self.new.kept
            ≡ Some (begun false (event_of unit.now number) [])) }
        ensures unchanged { OnErr result (self.new ≡ self.old) }
    {
        let unit = unit.copy()?;
        let event = EventName { unit, number };
        self.keep(alloc, false, event, Parts::new(Vec::new(alloc)));
        Ok(())
    }

    /// Makes the room of a place and a handle in it.
    #[inline(never)]
    fn keep(&mut self, alloc: Global, is_view: bool, event: EventName, seen: Parts)
        ensures kept { self.new.kept ≡ Some (begun is_view event seen) }
        ensures open { self.new.is_open ≡ self.old.is_open }
    {
        self.kept = Some(begun(alloc, is_view, event, seen));
    }

    /// Drafts a part at the open handle.
    pub fn draft(&mut self, part: PartRef) -> Result<(), NoMemory>
        ensures ok { OnOk result (shown self.new ≡ option_map (drafted_in part) (shown self.old)) }
        ensures unchanged { OnErr result (shown self.new ≡ shown self.old) }
    {
        if !self.is_open {
            return Ok(());
        }
        match &mut self.kept {
            Some(handle) => handle.drafted.push(part),
            None => Ok(()),
        }
    }

    /// Deletes a spot at the open handle.
    pub fn delete(&mut self, alloc: Global, spot: Spot) -> Result<(), NoMemory>
        ensures ok { OnOk result (shown self.new ≡ option_map (deleted_in spot) (shown self.old)) }
        ensures unchanged { OnErr result (shown self.new ≡ shown self.old) }
    {
        if !self.is_open {
            return Ok(());
        }
        match &mut self.kept {
            Some(handle) => delete_in(alloc, handle, spot),
            None => Ok(()),
        }
    }

    /// Attaches a privilege to the drafted parts of a name and label at the open handle.
    pub fn attach(
        &mut self,
        alloc: Global,
        name: &Name,
        label: &Label,
        p: &Privilege,
    ) -> Result<(), NoMemory>
        ensures ok { OnOk result (shown self.new ≡ option_map
            (attached_in (spot name.now label.now) p.now) (shown self.old)) }
        ensures unchanged { OnErr result (shown self.new ≡ shown self.old) }
    {
        if !self.is_open {
            return Ok(());
        }
        match &mut self.kept {
            Some(handle) => attach_in(alloc, handle, name, label, p),
            None => Ok(()),
        }
    }

    /// Puts what the open handle commits in place of an effect, and closes it.
    pub fn take(&mut self, alloc: Global, output: &Label, to: &mut Effect) -> Result<(), NoMemory>
        ensures effect { OnOk result (to.new ≡ committed output.now (shown self.old) to.old) }
        ensures closed { OnOk result (shown self.new ≡ None) }
        ensures unchanged { OnErr result (shown self.new ≡ shown self.old) }
    {
        if !self.is_open {
            return Ok(());
        }
        let Some(handle) = &mut self.kept else {
            return Ok(());
        };
        match commit_from(alloc, output, handle, to) {
            Ok(()) => {
                self.close(alloc);
                Ok(())
            }
            Err(refused) => Err(refused),
        }
    }

    /// Lets go what the handle had, and keeps the room of its lists.
    pub fn close(&mut self, alloc: Global)
        ensures { shown self.new ≡ None }
    {
        self.is_open = false;
        if let Some(handle) = &mut self.kept {
            handle.seen = Parts::new(Vec::new(alloc));
            handle.named.clear();
            handle.drafted.clear();
        }
    }
}

/// Puts what an open handle commits in place of an effect. What is left is to be let go.
fn commit_from(
    alloc: Global,
    output: &Label,
    handle: &mut Handle,
    to: &mut Effect,
) -> Result<(), NoMemory>
    ensures effect { OnOk result (to.new ≡ Effect.Commit (commit_of output.now handle.old)) }
    ensures unchanged { OnErr result (handle.new ≡ handle.old) }
{
    let added = match taken_out(alloc, output, &mut handle.drafted) {
        Ok(added) => added,
        Err(refused) => return Err(refused),
    };
    let event = mem::replace(&mut handle.event, no_event());
    let deleted = deletions(alloc, handle);
    *to = Effect::Commit(Commit {
        event,
        edit: Edit::adding(deleted, added),
    });
    Ok(())
}

/// Takes out the deletions that a release of a view makes; a draft has none.
fn deletions(alloc: Global, handle: &mut Handle) -> Vec<Spot>
    ensures { result.items ≡ deletions handle.old }
{
    if handle.is_view {
        handle.named.take()
    } else {
        Vec::new(alloc)
    }
}

/// What stands for the event of a handle that is closed.
fn no_event() -> EventName {
    EventName {
        unit: UnitName::Root(Path::root(0)),
        number: 0,
    }
}

/// A handle with nothing named and nothing drafted.
pub fn begun(alloc: Global, is_view: bool, event: EventName, seen: Parts) -> Handle
    ensures { result ≡ begun is_view event seen }
{
    Handle {
        is_view,
        event,
        seen,
        named: Spots::new(Vec::new(alloc)),
        drafted: Drafts::new(Vec::new(alloc)),
    }
}
