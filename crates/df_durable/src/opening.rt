//! A kept journal is read once, and each of its calls is made again.
ghost use Rattle.std.specs.Prelude.{◌≡◌, ◌≢◌, ◌↔◌, ◌≤◌, ◌<◌, ◌^◌, get_or, length, Err, IfErr, IfOk, IfSome, IsTrue, OnOk};
ghost use Rattle.df_disk.specs.Disk.{Elapses, IsSettled, NoMore, Recedes};
ghost use Rattle.df_durable.specs.Keeping.{IsOnDisk};
ghost use Rattle.df_durable.specs.Opening.{IfRead, IsBreak, IsOf, IsTaken, not_taken};
ghost use Rattle.df_durable.specs.declared.cause.OpenCause.TheVariants as cause;
ghost use Rattle.df_image.specs.Front.{IsFront, KeepsTo, TakesEntry};
ghost use Rattle.df_io.specs.Faults.{Counts, Rose};
ghost use Rattle.df_replay.specs.Replay.{entry_for, replayed};

use crate::{KeptCore, OpenCause};
use df_check::other_than;
use df_disk::{Disk, DiskFailed, Found, NotTaken, found_at, take_image};
use df_image::{entry_of, start_of};
use df_machine::Core;
use df_memory::NoMemory;
use df_unit::Entry;
use std::alloc::Global;

/// How many bytes a record has besides its own: its gate and its length.
const FRONT: usize = 9;

/// The machine with the start of the first record.
fn first_of(alloc: Global, image: &[u8]) -> Result<KeptCore, OpenCause>
    requires long { 1 < length image.now }
    requires open { get_or image.now 0 0 ≡ 1 }
    requires short { length image.now < 2 ^ 64 }
    ensures front { IfOk result (λ kept. IsFront image.now kept.core kept.gate) }
    ensures breaks { IfErr result (IsBreak image.now) }
{
    let text = match found_at(image, 0) {
        Found::Closed => unreachable!(),
        Found::Broken => return Err(OpenCause::Damaged { at: 0 }),
        Found::Whole(text) => text,
    };
    let start = match start_of(alloc, text)? {
        None => return Err(OpenCause::Damaged { at: 0 }),
        Some(start) => start,
    };
    let gate = (FRONT + text.len()) as u64;
    let core = Core::start(alloc, start)?;
    Ok(KeptCore { core, gate })
}

/// Makes the call of a kept entry, and tells whether this gives the kept entry.
fn is_made_again(core: &mut Core, kept: &Entry) -> Result<bool, NoMemory>
    ensures made { OnOk result (core.new ≡ replayed core.old kept.now) }
    ensures alike { IfOk result (λ b. IsTrue b ↔ (entry_for core.old kept.now ≡ kept.now)) }
{
    match other_than(core, kept)? {
        None => Ok(true),
        Some(other) => {
            drop(other);
            Ok(false)
        }
    }
}

/// Makes the call of the entry that a record keeps, or tells that it keeps none that is the answer.
fn take_entry(alloc: Global, core: &mut Core, text: &[u8]) -> Result<bool, NoMemory>
    ensures { IfOk result (TakesEntry core.old text.now core.new) }
{
    match entry_of(alloc, text)? {
        None => Ok(false),
        Some(entry) => {
            let is_answer = is_made_again(core, &entry);
            drop(entry);
            is_answer
        }
    }
}

/// Takes the record at the gate, and tells whether there was one: the gate may be closed.
fn take_record(alloc: Global, image: &[u8], kept: &mut KeptCore) -> Result<bool, OpenCause>
    requires front { IsFront image.now kept.old.core kept.old.gate }
    requires short { length image.now < 2 ^ 64 }
    ensures more { IfOk result (IsTaken image.now kept.old kept.new) }
    ensures breaks { IfErr result (IsBreak image.now) }
{
    let at = kept.gate;
    let text = match found_at(image, at as usize) {
        Found::Closed => return Ok(false),
        Found::Broken => return Err(OpenCause::Damaged { at }),
        Found::Whole(text) => text,
    };
    if !take_entry(alloc, &mut kept.core, text)? {
        return Err(OpenCause::Damaged { at });
    }
    kept.gate += (FRONT + text.len()) as u64;
    Ok(true)
}

/// The machine of all that an image keeps.
fn core_of(alloc: Global, image: &[u8]) -> Result<KeptCore, OpenCause>
    requires long { 1 < length image.now }
    requires open { get_or image.now 0 0 ≡ 1 }
    requires short { length image.now < 2 ^ 64 }
    ensures keeps { IfOk result (λ kept. KeepsTo image.now kept.core kept.gate) }
    ensures breaks { IfErr result (IsBreak image.now) }
{
    let mut kept = first_of(alloc, image)?;
    'records: while take_record(alloc, image, &mut kept)? {}
    Ok(kept)
}

/// What an image keeps: nothing, or a machine.
fn kept_of(alloc: Global, image: &[u8]) -> Result<Option<KeptCore>, OpenCause>
    ensures kept { IsOf image.now result }
    ensures short { length image.now < 2 ^ 64 }
    ensures fault { result ≢ Err cause.DiskFault }
{
    if image.len() <= 1 || image[0] != 1 {
        return Ok(None);
    }
    match core_of(alloc, image) {
        Ok(kept) => Ok(Some(kept)),
        Err(cause) => Err(cause),
    }
}

fn not_taken(why: NotTaken) -> OpenCause
    ensures { result ≡ not_taken why }
{
    match why {
        NotTaken::Fault => OpenCause::DiskFault,
        NotTaken::NoMemory => OpenCause::NoMemory,
    }
}

/// What is found on a disk of which nothing is pending: its image is read once.
fn found_on<D: Disk>(alloc: Global, disk: &mut D) -> Result<Option<KeptCore>, OpenCause>
    requires { IsSettled (D.bytes disk.old) (D.may_leave disk.old) }
    ensures found { IfSome (D.bytes disk.old) (λ image. IsOf image result) }
    ensures short { IfRead result (IfSome (D.bytes disk.old) (λ image. length image < 2 ^ 64)) }
    ensures on_disk { IfOk result (λ found. IfSome found
        (IsOnDisk D.bytes D.may_leave disk.new)) }
    ensures settled { IsSettled (D.bytes disk.new) (D.may_leave disk.new) }
    ensures same { D.bytes disk.new ≡ D.bytes disk.old }
    ensures time { Recedes (D.moment disk.old) (D.moment disk.new) (D.left_since disk.old)
        (D.left_since disk.new) }
    ensures fault { result ≡ Err cause.DiskFault → Rose (D.faults disk.old) (D.faults disk.new) }
    ensures never_falls { D.faults disk.old ≤ D.faults disk.new }
{
    match take_image(alloc, disk) {
        Ok(image) => kept_of(alloc, &image),
        Err(why) => Err(not_taken(why)),
    }
}

/// Syncs a disk: what is read afterwards is what a crash leaves.
fn settle<D: Disk>(disk: &mut D) -> Result<(), DiskFailed>
    ensures settled { OnOk result (IsSettled (D.bytes disk.old) (D.may_leave disk.new)) }
    ensures same { D.bytes disk.new ≡ D.bytes disk.old }
    ensures crash { NoMore (D.may_leave disk.old) (D.may_leave disk.new) }
    ensures time { Elapses (D.moment disk.old) (D.moment disk.new) (D.left_since disk.old)
        (D.left_since disk.new) (D.may_leave disk.new) }
    ensures cause { Counts (D.faults disk.old) (D.faults disk.new) result }
{
    disk.sync()
}

/// Syncs a disk, reads its image once, and makes each kept call again: gives the machine, or
/// nothing where the image is empty.
pub fn open_on<D: Disk>(alloc: Global, disk: &mut D) -> Result<Option<KeptCore>, OpenCause>
    ensures found { IfSome (D.bytes disk.old) (λ image. IsOf image result) }
    ensures short { IfRead result (IfSome (D.bytes disk.old) (λ image. length image < 2 ^ 64)) }
    ensures on_disk { IfOk result (λ found. IfSome found
        (IsOnDisk D.bytes D.may_leave disk.new)) }
    ensures settled { OnOk result (IsSettled (D.bytes disk.new) (D.may_leave disk.new)) }
    ensures same { D.bytes disk.new ≡ D.bytes disk.old }
    ensures time { Recedes (D.moment disk.old) (D.moment disk.new) (D.left_since disk.old)
        (D.left_since disk.new) }
    ensures fault { result ≡ Err cause.DiskFault → Rose (D.faults disk.old) (D.faults disk.new) }
    ensures never_falls { D.faults disk.old ≤ D.faults disk.new }
{
    match settle(disk) {
        Ok(()) => found_on(alloc, disk),
        Err(_) => Err(OpenCause::DiskFault),
    }
}
