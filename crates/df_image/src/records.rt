//! Records of a start and of an entry.
ghost use Rattle.std.specs.Prelude.{◌≡◌, ◌↔◌, IfOk, IsTrue};
ghost use Rattle.df_image.specs.Reading.{IsEntryRecord, IsStartRecord};
ghost use Rattle.df_spelled.specs.Spelled.{IsJoined};

use crate::reading::{entry_text, start_text};
use df_memory::NoMemory;
use df_spelled::{entry_is_spelled, start_is_spelled};
use df_start::{RootStart, Start};
use df_unit::Entry;
use std::alloc::Global;

/// Whether two starts are one.
pub fn same_roots(a: &[RootStart], b: &[RootStart]) -> bool
    ensures { IsTrue result ↔ (a.now ≡ b.now) }
{
    if a.len() != b.len() {
        return false;
    }
    for i in 0..a.len() {
        let is_same = a[i].label.same(&b[i].label) && a[i].privileges.same(&b[i].privileges);
        if !is_same {
            return false;
        }
    }
    true
}

/// The record of a start.
pub fn start_record(alloc: Global, start: &Start) -> Result<Vec<u8>, NoMemory>
    ensures { IfOk result (λ text. IsStartRecord start.now text.items) }
{
    start_is_spelled(start);
    start_text(alloc, start)
}

/// The record of an entry, whose reply and effect belong together.
pub fn entry_record(alloc: Global, entry: &Entry) -> Result<Vec<u8>, NoMemory>
    requires { IsJoined entry.now }
    ensures { IfOk result (λ text. IsEntryRecord entry.now text.items) }
{
    entry_is_spelled(entry);
    entry_text(alloc, entry)
}
