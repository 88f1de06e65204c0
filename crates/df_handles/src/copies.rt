//! The same handles once more.

ghost use Rattle.std.specs.Prelude.{◌≡◌, IfOk};
ghost use Rattle.df_handles.specs.code.Slot.{all_shown, shown};

use crate::parts::copies_of;
use crate::slot::Slot;
use df_memory::NoMemory;
use df_part::PartRef;
use df_unit::{Drafts, Handle, Spots};
use std::alloc::Global;

pub fn copies(alloc: Global, slots: &[Slot]) -> Result<Vec<Slot>, NoMemory>
    ensures { IfOk result (λ v. all_shown v.items ≡ all_shown slots.now) }
{
    let mut copies = Vec::with_capacity(alloc, slots.len())?;
    for slot in slots {
        copies.push(slot_copied(alloc, slot)?)?;
    }
    Ok(copies)
}

/// A place with the same open handle. The room of a closed one isn't copied.
fn slot_copied(alloc: Global, slot: &Slot) -> Result<Slot, NoMemory>
    ensures { IfOk result (λ s. shown s ≡ shown slot.now) }
{
    match slot.get() {
        None => Ok(Slot {
            is_open: false,
            kept: None,
        }),
        Some(handle) => Ok(Slot::of(handle_copied(alloc, handle)?)),
    }
}

fn handle_copied(alloc: Global, handle: &Handle) -> Result<Handle, NoMemory>
    ensures { IfOk result (λ d. d ≡ handle.now) }
{
    let event = handle.event.copy()?;
    let seen = handle.seen.copy()?;
    let named = Spots::new(copies_of(alloc, handle.named.as_slice())?);
    let drafted = Drafts::new(drafts_copied(alloc, handle.drafted.as_slice())?);
    Ok(Handle {
        is_view: handle.is_view,
        event,
        seen,
        named,
        drafted,
    })
}

fn drafts_copied(alloc: Global, parts: &[PartRef]) -> Result<Vec<PartRef>, NoMemory>
    ensures { IfOk result (λ v. v.items ≡ parts.now) }
{
    let mut copies = Vec::with_capacity(alloc, parts.len())?;
    for part in parts {
        copies.push(part.share()?)?;
    }
    Ok(copies)
}
