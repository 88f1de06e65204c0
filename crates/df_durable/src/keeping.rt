//! A start and entries are put on a disk, each behind a gate of its own.
ghost use Rattle.std.specs.Prelude.{◌≡◌, ◌≤◌, ◌<◌, ◌∷◌, ℕ, [], List, IfErr, IfOk, IfSome, IsSomeAnd, None, OnErr, OnOk, length, slice_get};
ghost use Rattle.df_disk.specs.Disk.{IsSettled, LeavesOnly};
ghost use Rattle.df_disk.specs.Records.{IsAtRest, IsEmpty, KeepsOrOneMore, frame_text};
ghost use Rattle.df_image.specs.Image.{start_record};
ghost use Rattle.df_image.specs.Reading.{IsEntryRecord};
ghost use Rattle.df_durable.specs.Keeping.{AppendsTo, HasCause, IsBeforeOrAfter, IsEmptyOrFirst, IsEmptyOrStarted, IsOnDisk, KeepsBeforeOrAfter, next_entry};
ghost use Rattle.df_io.specs.Faults.{Counts};
ghost use Rattle.df_journal_text.specs.Fits.{AreRoots};
ghost use Rattle.df_machine.specs.Journal.{answer_in, appended};
ghost use Rattle.df_spelled.specs.Spelled.{IsJoined};

use crate::NotKept;
use df_disk::{Disk, DiskFailed, append, begin, frame};
use df_image::{entry_record, start_record};
use df_machine::Core;
use df_memory::NoMemory;
use df_replay::copy_call;
use df_spelled::an_answer_is_joined;
use df_start::Start;
use df_unit::{Call, Reply, UnitName};
use std::alloc::Global;

/// The machine of what a disk keeps, and the place of the closed gate behind its records.
#[derive(Drop)]
pub struct KeptCore {
    pub core: Core,
    pub gate: u64,
}

/// Appends a record behind the gate, and gives the place of the next gate.
fn keep<D: Disk>(alloc: Global, disk: &mut D, gate: u64, text: &[u8]) -> Result<u64, NotKept>
    requires { IfSome (D.bytes disk.old) (λ bs. gate < length bs) }
    ensures kept { IfOk result (AppendsTo D.bytes D.may_leave disk.old disk.new gate text.now) }
    ensures any_moment { (records : List (List ℕ)) →
        IsAtRest D.bytes D.may_leave disk.old records gate →
        LeavesOnly D.moment D.left_since disk.old disk.new (KeepsOrOneMore records text.now) }
    ensures untold { D.bytes disk.old ≡ None → D.bytes disk.new ≡ None }
    ensures fault { IfErr result (HasCause (D.faults disk.old) (D.faults disk.new)) }
    ensures never_falls { D.faults disk.old ≤ D.faults disk.new }
{
    let framed = frame(alloc, text)?;
    let Some(next) = gate.checked_add(framed.len() as u64) else {
        return Err(NotKept::NoMemory);
    };
    match append(disk, gate, &framed) {
        Ok(()) => Ok(next),
        Err(_) => Err(NotKept::Fault),
    }
}

/// The record of the newest entry, of which there is one.
fn newest_record(alloc: Global, core: &Core) -> Result<Vec<u8>, NoMemory>
    requires { IsSomeAnd (slice_get core.now.1 0) IsJoined }
    ensures { IfOk result (λ text. IfSome (slice_get core.now.1 0) (λ entry.
        IsEntryRecord entry text.items)) }
{
    match core.newest() {
        Some(entry) => entry_record(alloc, entry),
        None => unreachable!(),
    }
}

/// What a store begins with.
#[derive(Drop)]
struct First {
    core: Core,
    framed: Vec<u8>,
}

/// The machine without an entry, and the first record with what is written around it.
fn first_of(alloc: Global, start: Start) -> Result<First, NotKept>
    ensures core { IfOk result (λ first. first.core ≡ (start, [])) }
    ensures framed { IfOk result (λ first. first.framed.items ≡ frame_text (start_record start)) }
    ensures roots { OnOk result (AreRoots start) }
    ensures cause { IfErr result (λ e. e ≡ NotKept.NoMemory) }
{
    let text = start_record(alloc, &start)?;
    let framed = frame(alloc, &text)?;
    let core = Core::start(alloc, start)?;
    Ok(First { core, framed })
}

/// Puts the first record on an empty disk.
fn put_first<D: Disk>(disk: &mut D, framed: &[u8]) -> Result<(), DiskFailed>
    requires empty { IfSome (D.bytes disk.old) IsEmpty }
    requires settled { IsSettled (D.bytes disk.old) (D.may_leave disk.old) }
    ensures kept { (bytes : List ℕ) → framed.now ≡ frame_text bytes → OnOk result
        (IfSome (D.bytes disk.old) (λ _.
        IsAtRest D.bytes D.may_leave disk.new (bytes ∷ []) (length framed.now))) }
    ensures any_moment { (bytes : List ℕ) → framed.now ≡ frame_text bytes →
        IfSome (D.bytes disk.old) (λ _.
        LeavesOnly D.moment D.left_since disk.old disk.new (IsEmptyOrFirst bytes)) }
    ensures untold { D.bytes disk.old ≡ None → D.bytes disk.new ≡ None }
    ensures cause { Counts (D.faults disk.old) (D.faults disk.new) result }
{
    begin(disk)?;
    append(disk, 0, framed)
}

/// Puts a start on an empty disk. All memory is taken before anything is written.
pub fn create_on<D: Disk>(alloc: Global, disk: &mut D, start: Start) -> Result<KeptCore, NotKept>
    requires empty { IfSome (D.bytes disk.old) IsEmpty }
    requires settled { IsSettled (D.bytes disk.old) (D.may_leave disk.old) }
    ensures core { IfOk result (λ kept. kept.core ≡ (start, [])) }
    ensures on_disk { IfOk result (IsOnDisk D.bytes D.may_leave disk.new) }
    ensures tells { OnOk result (D.bytes disk.new ≡ None → D.bytes disk.old ≡ None) }
    ensures any_moment { IfSome (D.bytes disk.old) (λ _.
        LeavesOnly D.moment D.left_since disk.old disk.new (IsEmptyOrStarted start)) }
    ensures unwritten { IfErr result (λ e. e ≡ NotKept.NoMemory → disk.new ≡ disk.old) }
    ensures fault { IfErr result (HasCause (D.faults disk.old) (D.faults disk.new)) }
    ensures never_falls { D.faults disk.old ≤ D.faults disk.new }
{
    let First { core, framed } = first_of(alloc, start)?;
    let gate = framed.len() as u64;
    match put_first(disk, &framed) {
        Ok(()) => Ok(KeptCore { core, gate }),
        Err(_) => {
            drop(core);
            Err(NotKept::Fault)
        }
    }
}

/// Makes a call on a machine.
fn make_call(core: &mut Core, actor: &UnitName, call: &Call) -> Result<Reply, NoMemory>
    ensures reply { IfOk result (λ r. r ≡ (answer_in core.old actor.now call.now).0) }
    ensures entry { OnOk result (core.new ≡ appended actor.now call.now core.old) }
    ensures unchanged { OnErr result (core.new ≡ core.old) }
{
    let copy = copy_call(call)?;
    match core.step(actor, copy) {
        Ok(reply) => Ok(reply),
        Err(_) => Err(NoMemory),
    }
}

/// What is answered to a call, and the record of its entry.
#[derive(Drop)]
struct Made {
    reply: Reply,
    text: Vec<u8>,
}

/// Makes a call on a machine, and spells its entry.
fn make_spelled(
    alloc: Global,
    core: &mut Core,
    actor: &UnitName,
    call: &Call,
) -> Result<Made, NoMemory>
    ensures reply { IfOk result (λ made. made.reply ≡ (answer_in core.old actor.now call.now).0) }
    ensures entry { OnOk result (core.new ≡ appended actor.now call.now core.old) }
    ensures spelled { IfOk result (λ made.
        IsEntryRecord (next_entry actor.now call.now core.old) made.text.items) }
    ensures stops { OnErr result (IsBeforeOrAfter actor.now call.now core.old core.new) }
{
    let reply = make_call(core, actor, call)?;
    an_answer_is_joined();
    match newest_record(alloc, core) {
        Ok(text) => Ok(Made { reply, text }),
        Err(why) => {
            drop(reply);
            Err(why)
        }
    }
}

/// Makes a call and keeps its entry. Where that fails, the disk is to be opened again.
pub fn step_on<D: Disk>(
    alloc: Global,
    disk: &mut D,
    kept: &mut KeptCore,
    actor: &UnitName,
    call: &Call,
) -> Result<Reply, NotKept>
    requires { IsOnDisk D.bytes D.may_leave disk.old kept.old }
    ensures reply { IfOk result (λ r. r ≡ (answer_in kept.old.core actor.now call.now).0) }
    ensures entry { OnOk result (kept.new.core ≡ appended actor.now call.now kept.old.core) }
    ensures on_disk { OnOk result (IsOnDisk D.bytes D.may_leave disk.new kept.new) }
    ensures tells { OnOk result (D.bytes disk.new ≡ None → D.bytes disk.old ≡ None) }
    ensures any_moment { IfSome (D.bytes disk.old) (λ _.
        LeavesOnly D.moment D.left_since disk.old disk.new
        (KeepsBeforeOrAfter kept.old.core actor.now call.now)) }
    ensures stops { OnErr result
        (IsBeforeOrAfter actor.now call.now kept.old.core kept.new.core) }
    ensures fault { IfErr result (HasCause (D.faults disk.old) (D.faults disk.new)) }
    ensures never_falls { D.faults disk.old ≤ D.faults disk.new }
{
    let Made { reply, text } = make_spelled(alloc, &mut kept.core, actor, call)?;
    match keep(alloc, disk, kept.gate, &text) {
        Ok(gate) => {
            kept.gate = gate;
            Ok(reply)
        }
        Err(why) => {
            drop(reply);
            Err(why)
        }
    }
}
