//! The places of handles: each open or free.

ghost use Rattle.std.specs.Prelude.{◌≡◌, ◌≤◌, ◌∷◌, [], ◌++◌, Some, false, length, true, option_copied, OnOk, OnErr};
ghost use Rattle.df_unit.specs.Drafts.{attached_in, deleted_in, spot};
ghost use Rattle.df_unit.specs.Handles.{changed_at, closed, handle_at, least_free, opened};
ghost use Rattle.df_handles.specs.Commits.{committed};
ghost use Rattle.df_handles.specs.code.Slot.{all_shown, begun, event_of};

use crate::slot::{Slot, begun};
use df_frozen::Name;
use df_label::{Label, Privilege};
use df_memory::NoMemory;
use df_part::{PartRef, Parts, Spot};
use df_unit::{Effect, EventName, Handle, UnitName};

/// The least number that isn't open.
pub fn least_free(slots: &[Slot]) -> usize
    ensures least { result ≡ least_free (all_shown slots.now) }
    ensures within { result ≤ length slots.now }
{
    for (h, slot) in slots.iter().enumerate() {
        if slot.get().is_none() {
            return h;
        }
    }
    slots.len()
}

/// The open handle of a number.
pub fn handle_at(slots: &[Slot], h: u32) -> Option<&Handle>
    ensures { option_copied result ≡ handle_at (all_shown slots.now) h }
{
    let place = h as usize;
    if place < slots.len() {
        slots[place].get()
    } else {
        None
    }
}

/// Opens a handle at the least number that isn't open.
pub fn open(slots: &mut Vec<Slot>, handle: Handle) -> Result<(), NoMemory>
    ensures ok { OnOk result (all_shown slots.new.items
        ≡ opened handle (all_shown slots.old.items)) }
    ensures unchanged { OnErr result (all_shown slots.new.items ≡ all_shown slots.old.items) }
{
    let h = least_free(slots.as_slice());
    if h < slots.len() {
        slots[h].hold(handle);
        return Ok(());
    }
    slots.push(Slot::of(handle))?;
    Ok(())
}

/// Opens a view at the least number that isn't open, in the room of the handle before.
#[inline(always)]
pub fn begin_view(slots: &mut Vec<Slot>, event: EventName, seen: Parts) -> Result<(), NoMemory>
    ensures ok { OnOk result (all_shown slots.new.items
        ≡ opened (begun true event seen) (all_shown slots.old.items)) }
    ensures unchanged { OnErr result (all_shown slots.new.items ≡ all_shown slots.old.items) }
{
    let alloc = *slots.allocator();
    let h = least_free(slots.as_slice());
    if h < slots.len() {
        slots[h].begin_view(alloc, event, seen);
        return Ok(());
    }
    push_begun(slots, true, event, seen)
}

/// Opens an empty draft of a unit's event at the least number that isn't open, in the room of the
/// handle before.
#[inline(always)]
pub fn begin_draft(slots: &mut Vec<Slot>, unit: &UnitName, number: u32) -> Result<(), NoMemory>
    ensures ok { OnOk result (all_shown slots.new.items
        ≡ opened (begun false (event_of unit.now number) []) (all_shown slots.old.items)) }
    ensures unchanged { OnErr result (all_shown slots.new.items ≡ all_shown slots.old.items) }
{
    let alloc = *slots.allocator();
    let h = least_free(slots.as_slice());
    if h < slots.len() {
        return slots[h].begin_draft(alloc, unit, number);
    }
    push_draft(slots, unit, number)
}

/// Opens an empty draft at a new place.
#[inline(never)]
fn push_draft(slots: &mut Vec<Slot>, unit: &UnitName, number: u32) -> Result<(), NoMemory>
    ensures ok { OnOk result (all_shown slots.new.items ≡ all_shown slots.old.items
        ++ Some (begun false (event_of unit.now number) []) ∷ []) }
    ensures unchanged { OnErr result (all_shown slots.new.items ≡ all_shown slots.old.items) }
{
    let alloc = *slots.allocator();
    let unit = unit.copy()?;
    let event = EventName { unit, number };
    push_begun(slots, false, event, Parts::new(Vec::new(alloc)))
}

/// Opens a handle with nothing named and nothing drafted at a new place.
#[inline(never)]
fn push_begun(
    slots: &mut Vec<Slot>,
    is_view: bool,
    event: EventName,
    seen: Parts,
) -> Result<(), NoMemory>
    ensures ok { OnOk result (all_shown slots.new.items
        ≡ all_shown slots.old.items ++ Some (begun is_view event seen) ∷ []) }
    ensures unchanged { OnErr result (all_shown slots.new.items ≡ all_shown slots.old.items) }
{
    let alloc = *slots.allocator();
    slots.push(Slot::of(begun(alloc, is_view, event, seen)))?;
    Ok(())
}

/// Drafts a part at an open handle.
pub fn draft(slots: &mut Vec<Slot>, h: u32, part: PartRef) -> Result<(), NoMemory>
    ensures ok { OnOk result (all_shown slots.new.items ≡ changed_at (all_shown slots.old.items) h
        (λ d. record d { drafted = d.drafted ++ part ∷ [] })) }
    ensures unchanged { OnErr result (all_shown slots.new.items ≡ all_shown slots.old.items) }
{
    let place = h as usize;
    if place < slots.len() {
        return slots[place].draft(part);
    }
    Ok(())
}

/// Deletes a spot at an open handle.
pub fn delete(slots: &mut Vec<Slot>, h: u32, spot: Spot) -> Result<(), NoMemory>
    ensures ok { OnOk result (all_shown slots.new.items ≡ changed_at (all_shown slots.old.items) h
        (deleted_in spot)) }
    ensures unchanged { OnErr result (all_shown slots.new.items ≡ all_shown slots.old.items) }
{
    let alloc = *slots.allocator();
    let place = h as usize;
    if place < slots.len() {
        return slots[place].delete(alloc, spot);
    }
    Ok(())
}

/// Attaches a privilege to the drafted parts of a name and label at an open handle.
pub fn attach(
    slots: &mut Vec<Slot>,
    h: u32,
    name: &Name,
    label: &Label,
    p: &Privilege,
) -> Result<(), NoMemory>
    ensures ok { OnOk result (all_shown slots.new.items ≡ changed_at (all_shown slots.old.items) h
        (attached_in (spot name.now label.now) p.now)) }
    ensures unchanged { OnErr result (all_shown slots.new.items ≡ all_shown slots.old.items) }
{
    let alloc = *slots.allocator();
    let place = h as usize;
    if place < slots.len() {
        return slots[place].attach(alloc, name, label, p);
    }
    Ok(())
}

/// Puts what an open handle commits in place of an effect, and closes it.
pub fn take(slots: &mut Vec<Slot>, h: u32, output: &Label, to: &mut Effect) -> Result<(), NoMemory>
    ensures effect { OnOk result (to.new
        ≡ committed output.now (handle_at (all_shown slots.old.items) h) to.old) }
    ensures closed { OnOk result (all_shown slots.new.items
        ≡ closed (all_shown slots.old.items) h) }
    ensures unchanged { OnErr result (all_shown slots.new.items ≡ all_shown slots.old.items) }
{
    let alloc = *slots.allocator();
    let place = h as usize;
    if place < slots.len() {
        return slots[place].take(alloc, output, to);
    }
    Ok(())
}

/// Closes a handle.
pub fn close(slots: &mut Vec<Slot>, h: u32)
    ensures { all_shown slots.new.items ≡ closed (all_shown slots.old.items) h }
{
    let alloc = *slots.allocator();
    let place = h as usize;
    if place < slots.len() {
        slots[place].close(alloc);
    }
}
