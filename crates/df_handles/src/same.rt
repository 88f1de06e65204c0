//! Whether two units have the same handles.

ghost use Rattle.std.specs.Prelude.{◌≡◌, ◌↔◌, IsTrue};
ghost use Rattle.df_handles.specs.code.Slot.{all_shown, shown};

use crate::slot::Slot;
use df_part::{PartRef, Spot};
use df_unit::Handle;

pub fn same(a: &[Slot], b: &[Slot]) -> bool
    ensures { IsTrue result ↔ (all_shown a.now ≡ all_shown b.now) }
{
    if a.len() != b.len() {
        return false;
    }
    for i in 0..a.len() {
        let is_same = same_slot(&a[i], &b[i]);
        if !is_same {
            return false;
        }
    }
    true
}

/// Whether neither place has an open handle, or both have the same.
fn same_slot(a: &Slot, b: &Slot) -> bool
    ensures { IsTrue result ↔ (shown a.now ≡ shown b.now) }
{
    match (a.get(), b.get()) {
        (Some(a), Some(b)) => same_handle(a, b),
        (None, None) => true,
        _ => false,
    }
}

fn same_handle(a: &Handle, b: &Handle) -> bool
    ensures { IsTrue result ↔ (a.now ≡ b.now) }
{
    a.is_view == b.is_view
        && a.event.same(&b.event)
        && a.seen.same(&b.seen)
        && same_spots(a.named.as_slice(), b.named.as_slice())
        && same_drafts(a.drafted.as_slice(), b.drafted.as_slice())
}

fn same_spots(a: &[Spot], b: &[Spot]) -> bool
    ensures { IsTrue result ↔ (a.now ≡ b.now) }
{
    if a.len() != b.len() {
        return false;
    }
    for i in 0..a.len() {
        let is_same = a[i].same(&b[i]);
        if !is_same {
            return false;
        }
    }
    true
}

fn same_drafts(a: &[PartRef], b: &[PartRef]) -> bool
    ensures { IsTrue result ↔ (a.now ≡ b.now) }
{
    if a.len() != b.len() {
        return false;
    }
    for i in 0..a.len() {
        let is_same = a[i].same(&b[i]);
        if !is_same {
            return false;
        }
    }
    true
}
