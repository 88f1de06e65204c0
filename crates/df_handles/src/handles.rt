//! The handles of a unit, each by its number.

use crate::copies::copies;
use crate::limits::MOST_HANDLES;
use crate::places::{
    attach, begin_draft, begin_view, close, delete, draft, handle_at, least_free, open, take,
};
use crate::same::same;
use crate::slot::Slot;
use df_frozen::Name;
use df_label::{Label, Privilege};
use df_memory::NoMemory;
use df_part::{PartRef, Parts, Spot};
use df_unit::{Effect, EventName, Handle, UnitName};
use std::alloc::Global;
use std::marker::Model;

/// The handles that a unit has open. A handle's number is its place; those of closed ones are free,
/// and their room is kept for the next.
#[derive(Drop)]
pub struct Handles {
    slots: Vec<Slot>,
    /// How many are open.
    count: usize,
}

impl Model for Handles {
    ghost use Rattle.std.specs.Prelude.{List, Option};
    ghost use Rattle.std.specs.Coded.{coded_list, coded_option};
    ghost use Rattle.df_unit.specs.declared.handle.Handle.{Handle};
    ghost use Rattle.df_unit.specs.contracts.handle.Handle as content;
    ghost use Rattle.df_handles.specs.code.Slot.{all_shown};
    ghost use Rattle.std.specs.Prelude.{◌≡◌};
    ghost use Rattle.df_unit.specs.Handles.{open_count};

    ghost Value = { List (Option Handle) };

    ghost coded = { coded_list (coded_option content.the_row.coded) };

    ghost view = { λ h. all_shown h.slots.items };

    ghost invariant = { λ h. h.count ≡ open_count (all_shown h.slots.items) };
}

impl Handles {
    ghost use Rattle.std.specs.Prelude.{◌≡◌, ◌↔◌, ◌∷◌, ◌++◌, [], false, IfOk, IsTrue, OnErr, OnOk, option_copied};
    ghost use Rattle.df_handles.specs.Commits.{committed};
    ghost use Rattle.df_unit.specs.Drafts.{attached_in, deleted_in, spot};
    ghost use Rattle.df_unit.specs.Handles.{changed_at, closed, draft_of, handle_at, is_full, least_free, open_count, opened, view_of};

    /// None. Takes no memory.
    pub fn new(alloc: Global) -> Handles
        ensures { result ≡ [] }
    {
        Handles {
            slots: Vec::new(alloc),
            count: 0,
        }
    }

    /// The same handles once more.
    pub fn copy(&self) -> Result<Handles, NoMemory>
        ensures { IfOk result (λ h. h ≡ self.now) }
    {
        let slots = copies(*self.slots.allocator(), self.slots.as_slice())?;
        Ok(Handles {
            slots,
            count: self.count,
        })
    }

    /// Whether the same handles are open under the same numbers, values by their plain content.
    pub fn same(&self, other: &Handles) -> bool
        ensures { IsTrue result ↔ (self.now ≡ other.now) }
    {
        same(self.slots.as_slice(), other.slots.as_slice())
    }

    /// How many are open.
    pub fn count(&self) -> usize
        ensures { result ≡ open_count self.now }
    {
        self.count
    }

    /// Whether no handle more may be opened.
    pub fn is_full(&self) -> bool
        ensures { result ≡ is_full self.now }
    {
        self.count >= MOST_HANDLES
    }

    /// The number that the next handle gets.
    #[tactic(auto, using(crate::proofs::OpenHandles::least_free_within))]
    pub fn least_free(&self) -> u32
        requires { is_full self.now ≡ false }
        ensures { result ≡ least_free self.now }
    {
        least_free(self.slots.as_slice()) as u32
    }

    /// The open handle of a number.
    pub fn get(&self, h: u32) -> Option<&Handle>
        ensures { option_copied result ≡ handle_at self.now h }
    {
        handle_at(self.slots.as_slice(), h)
    }

    /// Opens a handle at the least number that isn't open.
    #[tactic(auto, using(crate::proofs::OpenHandles::one_more_open))]
    pub fn open(&mut self, handle: Handle) -> Result<(), NoMemory>
        ensures ok { OnOk result (self.new ≡ opened handle self.old) }
        ensures unchanged { OnErr result (self.new ≡ self.old) }
    {
        open(&mut self.slots, handle)?;
        self.count += 1;
        Ok(())
    }

    /// Opens an empty draft of a unit's event, in the room that a closed handle has left.
    #[tactic(auto, using(crate::proofs::OpenHandles::one_more_open))]
    pub fn open_draft(&mut self, unit: &UnitName, number: u32) -> Result<(), NoMemory>
        ensures ok { OnOk result (self.new
            ≡ opened (draft_of (record { unit = unit.now; number = number }) []) self.old) }
        ensures unchanged { OnErr result (self.new ≡ self.old) }
    {
        begin_draft(&mut self.slots, unit, number)?;
        self.count += 1;
        Ok(())
    }

    /// Opens a view of an event with these parts, in the room that a closed handle has left.
    #[tactic(auto, using(crate::proofs::OpenHandles::one_more_open))]
    pub fn open_view(&mut self, event: EventName, seen: Parts) -> Result<(), NoMemory>
        ensures ok { OnOk result (self.new ≡ opened (view_of event seen) self.old) }
        ensures unchanged { OnErr result (self.new ≡ self.old) }
    {
        begin_view(&mut self.slots, event, seen)?;
        self.count += 1;
        Ok(())
    }

    /// Drafts a part at an open handle.
    #[tactic(auto, using(crate::proofs::OpenHandles::as_many_open))]
    pub fn draft(&mut self, h: u32, part: PartRef) -> Result<(), NoMemory>
        ensures ok { OnOk result (self.new ≡ changed_at self.old h
            (λ d. record d { drafted = d.drafted ++ part ∷ [] })) }
        ensures unchanged { OnErr result (self.new ≡ self.old) }
    {
        draft(&mut self.slots, h, part)
    }

    /// Takes the drafted parts of a spot out of an open handle. Where there are none, names the
    /// spot for deletion.
    #[tactic(auto, using(crate::proofs::OpenHandles::as_many_open))]
    pub fn delete(&mut self, h: u32, spot: Spot) -> Result<(), NoMemory>
        ensures ok { OnOk result (self.new ≡ changed_at self.old h (deleted_in spot)) }
        ensures unchanged { OnErr result (self.new ≡ self.old) }
    {
        delete(&mut self.slots, h, spot)
    }

    /// Attaches a privilege to the drafted parts of a name and label.
    #[tactic(auto, using(crate::proofs::OpenHandles::as_many_open))]
    pub fn attach(
        &mut self,
        h: u32,
        name: &Name,
        label: &Label,
        p: &Privilege,
    ) -> Result<(), NoMemory>
        ensures ok { OnOk result (self.new ≡ changed_at self.old h
            (attached_in (spot name.now label.now) p.now)) }
        ensures unchanged { OnErr result (self.new ≡ self.old) }
    {
        attach(&mut self.slots, h, name, label, p)
    }

    /// Puts what an open handle commits in place of an effect, and closes it.
    #[tactic(auto, using(crate::proofs::OpenHandles::none_less_open, crate::proofs::OpenHandles::one_less_open))]
    pub fn take(&mut self, h: u32, output: &Label, to: &mut Effect) -> Result<(), NoMemory>
        ensures effect { OnOk result (to.new
            ≡ committed output.now (handle_at self.old h) to.old) }
        ensures closed { OnOk result (self.new ≡ closed self.old h) }
        ensures unchanged { OnErr result (self.new ≡ self.old) }
    {
        let is_open = self.get(h).is_some();
        take(&mut self.slots, h, output, to)?;
        if is_open {
            self.count -= 1;
        }
        Ok(())
    }

    /// Closes a handle.
    #[tactic(auto, using(crate::proofs::OpenHandles::none_less_open, crate::proofs::OpenHandles::one_less_open))]
    pub fn close(&mut self, h: u32)
        ensures { self.new ≡ closed self.old h }
    {
        if self.get(h).is_some() {
            self.count -= 1;
        }
        close(&mut self.slots, h);
    }
}
