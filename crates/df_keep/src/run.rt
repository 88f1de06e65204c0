ghost use Rattle.std.specs.Prelude.{◌≡◌, IfOk, IfSome};
ghost use Rattle.df_disk.specs.Disk.{LeavesOnly};
ghost use Rattle.df_keep.specs.Kept.{MayBeLeft};
ghost use Rattle.df_keep.specs.Outcome.{BadInputIsExact, DamagedIsExact, DiskFaultIsDue, DoesScript, Ends, IfNamed, IsOfARun, ReadFaultIsDue, StartDiffersIsExact, StoresAll, TooLongIsExact, UsageIsExact, WriteFaultIsDue, kept_text};
ghost use Rattle.df_keep.specs.Script.{NamesNothing, texts};
ghost use Rattle.df_keep.specs.Storing.{IsWritten};

use crate::KeepStatus;
use crate::names::named_in;
use crate::script::script_of;
use crate::store::keep_script;
use df_disk::Disk;
use df_io::{Shelf, Sink, write_all};
use df_memory::NoMemory;
use df_value_text::append_number;
use std::alloc::Global;

/// What is written of a store with so many entries.
fn kept_text(alloc: Global, count: usize) -> Result<Vec<u8>, NoMemory>
    ensures { IfOk result (λ text. text.items ≡ kept_text count) }
{
    let mut text = Vec::from_slice(alloc, b"kept ")?;
    append_number(count as u64, &mut text)?;
    text.push(b'\n')?;
    Ok(text)
}

/// Writes the number of the entries.
fn write_kept<W: Sink>(alloc: Global, count: usize, out: &mut W) -> KeepStatus
    ensures written { IsWritten (W.written out.old) (W.written out.new) count result }
    ensures write_fault { WriteFaultIsDue (W.faults out.old) (W.faults out.new) result }
{
    let Ok(text) = kept_text(alloc, count) else {
        return KeepStatus::NoMemory;
    };
    if write_all(out, &text).is_err() {
        return KeepStatus::WriteFault;
    }
    KeepStatus::Done
}

/// Makes the calls of the script of this name on the store, and writes how many entries it has.
fn keep_named<F: Shelf, D: Disk, W: Sink>(
    alloc: Global,
    name: &str,
    shelf: &mut F,
    disk: &mut D,
    out: &mut W,
) -> KeepStatus
    ensures named { IsOfARun result }
    ensures bad_input { BadInputIsExact (F.bytes shelf.old name.now) result }
    ensures too_long { TooLongIsExact (F.bytes shelf.old name.now) result }
    ensures damaged { DamagedIsExact (F.bytes shelf.old name.now) (D.bytes disk.old) result }
    ensures start_differs { StartDiffersIsExact (F.bytes shelf.old name.now) (D.bytes disk.old)
        result }
    ensures read_fault { ReadFaultIsDue (F.faults shelf.old) (F.faults shelf.new) result }
    ensures write_fault { WriteFaultIsDue (W.faults out.old) (W.faults out.new) result }
    ensures disk_fault { DiskFaultIsDue (D.faults disk.old) (D.faults disk.new) result }
    ensures ends { Ends
        (StoresAll D.bytes D.may_leave (F.bytes shelf.old name.now) disk.old disk.new)
        (W.written out.old) (W.written out.new) result }
    ensures does { DoesScript (F.bytes shelf.old name.now) (D.bytes disk.old) result }
    ensures any_moment { IfSome (D.bytes disk.old) (λ image.
        LeavesOnly D.moment D.left_since disk.old disk.new
        (MayBeLeft (D.may_leave disk.old) (F.bytes shelf.old name.now) image)) }
{
    let script = match script_of(alloc, shelf, name) {
        Ok(script) => script,
        Err(status) => return status,
    };
    match keep_script(alloc, disk, script) {
        Ok(count) => write_kept(alloc, count, out),
        Err(status) => status,
    }
}

/// Makes the calls of a script on a kept journal, and writes how many entries it then has. The
/// words are the names of the script and of the store, and the disk is the store.
pub fn run_keep<F: Shelf, D: Disk, W: Sink>(
    alloc: Global,
    words: &[String],
    shelf: &mut F,
    disk: &mut D,
    out: &mut W,
) -> KeepStatus
    ensures usage { UsageIsExact (texts words.now) result }
    ensures unused { NamesNothing (texts words.now) → W.written out.new ≡ W.written out.old }
    ensures unused_disk { NamesNothing (texts words.now) → disk.new ≡ disk.old }
    ensures bad_input { IfNamed (texts words.now) (λ name.
        BadInputIsExact (F.bytes shelf.old name) result) }
    ensures too_long { IfNamed (texts words.now) (λ name.
        TooLongIsExact (F.bytes shelf.old name) result) }
    ensures damaged { IfNamed (texts words.now) (λ name.
        DamagedIsExact (F.bytes shelf.old name) (D.bytes disk.old) result) }
    ensures start_differs { IfNamed (texts words.now) (λ name.
        StartDiffersIsExact (F.bytes shelf.old name) (D.bytes disk.old) result) }
    ensures read_fault { ReadFaultIsDue (F.faults shelf.old) (F.faults shelf.new) result }
    ensures write_fault { WriteFaultIsDue (W.faults out.old) (W.faults out.new) result }
    ensures disk_fault { DiskFaultIsDue (D.faults disk.old) (D.faults disk.new) result }
    ensures ends { IfNamed (texts words.now) (λ name.
        Ends (StoresAll D.bytes D.may_leave (F.bytes shelf.old name) disk.old disk.new)
        (W.written out.old) (W.written out.new) result) }
    ensures does { IfNamed (texts words.now) (λ name.
        DoesScript (F.bytes shelf.old name) (D.bytes disk.old) result) }
    ensures any_moment { IfNamed (texts words.now) (λ name.
        IfSome (D.bytes disk.old) (λ image.
        LeavesOnly D.moment D.left_since disk.old disk.new
        (MayBeLeft (D.may_leave disk.old) (F.bytes shelf.old name) image))) }
{
    match named_in(words) {
        Some(names) => keep_named(alloc, names.script, shelf, disk, out),
        None => KeepStatus::Usage,
    }
}
