//! The store of a run: it is opened or created, and the script's calls are made on it.
ghost use Rattle.std.specs.Prelude.{◌≡◌, ◌≢◌, ◌≤◌, IfErr, IfOk, IfSome, None, OnOk, length};
ghost use Rattle.df_disk.specs.Disk.{LeavesOnly};
ghost use Rattle.df_durable.specs.Keeping.{IsOnDisk};
ghost use Rattle.df_durable.specs.StoredState.{Holds};
ghost use Rattle.df_keep.specs.Kept.{BeginsWith, followed};
ghost use Rattle.df_keep.specs.Storing.{IsJudged, KeepsSome, MayBeBegun, MayBeKept, StopsOpening, StopsStepping, Stores, not_kept, not_opened};

use crate::KeepStatus;
use crate::script::Script;
use df_disk::Disk;
use df_durable::{KeptCore, NotKept, OpenCause, create_on, open_on, step_on};
use df_image::same_roots;
use df_script_text::ScriptLine;
use df_start::Start;
use std::alloc::Global;

fn not_opened(cause: OpenCause) -> KeepStatus
    ensures { result ≡ not_opened cause }
{
    match cause {
        OpenCause::DiskFault => KeepStatus::DiskFault,
        OpenCause::Damaged { at } => KeepStatus::Damaged { at },
        OpenCause::NoMemory => KeepStatus::NoMemory,
    }
}

fn not_kept(cause: NotKept) -> KeepStatus
    ensures { result ≡ not_kept cause }
{
    match cause {
        NotKept::Fault => KeepStatus::DiskFault,
        NotKept::NoMemory => KeepStatus::NoMemory,
    }
}

/// What is kept, where it has this start.
fn with_start(kept: KeptCore, start: &Start) -> Result<KeptCore, KeepStatus>
    ensures same { IfOk result (λ k. (k ≡ kept) × (kept.core.0 ≡ start.now)) }
    ensures other { IfErr result (λ status. (status ≡ KeepStatus.StartDiffers)
        × (kept.core.0 ≢ start.now)) }
{
    if same_roots(kept.core.start_of().as_slice(), start.as_slice()) {
        return Ok(kept);
    }
    drop(kept);
    Err(KeepStatus::StartDiffers)
}

/// Opens the store, and creates it where it is empty.
fn begin<D: Disk>(alloc: Global, disk: &mut D, start: Start) -> Result<KeptCore, KeepStatus>
    ensures start { IfOk result (λ kept. kept.core.0 ≡ start) }
    ensures begins { IfOk result (λ kept. IfSome (D.bytes disk.old) (λ image.
        BeginsWith start image kept.core)) }
    ensures on_disk { IfOk result (IsOnDisk D.bytes D.may_leave disk.new) }
    ensures tells { OnOk result (D.bytes disk.new ≡ None → D.bytes disk.old ≡ None) }
    ensures any_moment { IfSome (D.bytes disk.old) (λ image.
        LeavesOnly D.moment D.left_since disk.old disk.new
        (MayBeBegun (D.may_leave disk.old) start image)) }
    ensures judged { IfSome (D.bytes disk.old) (λ image. IsJudged start image result) }
    ensures stops { IfErr result (StopsOpening (D.faults disk.old) (D.faults disk.new)) }
    ensures never_falls { D.faults disk.old ≤ D.faults disk.new }
{
    let found = match open_on(alloc, disk) {
        Ok(found) => found,
        Err(cause) => return Err(not_opened(cause)),
    };
    match found {
        None => match create_on(alloc, disk, start) {
            Ok(kept) => Ok(kept),
            Err(why) => Err(not_kept(why)),
        },
        Some(kept) => with_start(kept, &start),
    }
}

/// Makes the calls, each of which is kept before the next is made, and counts the entries.
fn step_all<D: Disk>(
    alloc: Global,
    disk: &mut D,
    kept: &mut KeptCore,
    lines: &[ScriptLine],
) -> Result<usize, KeepStatus>
    requires { IsOnDisk D.bytes D.may_leave disk.old kept.old }
    ensures count { IfOk result (λ n. n ≡ length kept.new.core.1) }
    ensures made { OnOk result (kept.new.core ≡ followed kept.old.core lines.now) }
    ensures on_disk { OnOk result (IsOnDisk D.bytes D.may_leave disk.new kept.new) }
    ensures tells { OnOk result (D.bytes disk.new ≡ None → D.bytes disk.old ≡ None) }
    ensures any_moment { IfSome (D.bytes disk.old) (λ _.
        LeavesOnly D.moment D.left_since disk.old disk.new
        (KeepsSome kept.old.core lines.now)) }
    ensures stops { IfErr result (StopsStepping (D.faults disk.old) (D.faults disk.new)) }
    ensures never_falls { D.faults disk.old ≤ D.faults disk.new }
{
    for line in lines {
        match step_on(alloc, disk, kept, &line.actor, &line.call) {
            Ok(reply) => drop(reply),
            Err(why) => return Err(not_kept(why)),
        }
    }
    Ok(kept.core.journal().len())
}

/// Makes the calls on a store that was begun, and gives the number of its entries.
fn step_lines<D: Disk>(
    alloc: Global,
    disk: &mut D,
    mut kept: KeptCore,
    lines: &[ScriptLine],
) -> Result<usize, KeepStatus>
    requires { IsOnDisk D.bytes D.may_leave disk.old kept }
    ensures count { IfOk result (λ n. n ≡ length (followed kept.core lines.now).1) }
    ensures holds { OnOk result (IfSome (D.bytes disk.old) (λ _.
        Holds D.bytes D.may_leave disk.new (followed kept.core lines.now))) }
    ensures any_moment { IfSome (D.bytes disk.old) (λ _.
        LeavesOnly D.moment D.left_since disk.old disk.new (KeepsSome kept.core lines.now)) }
    ensures stops { IfErr result (StopsStepping (D.faults disk.old) (D.faults disk.new)) }
{
    let counted = step_all(alloc, disk, &mut kept, lines);
    drop(kept);
    counted
}

/// Makes the script's calls on the store, and gives the number of its entries.
pub fn keep_script<D: Disk>(
    alloc: Global,
    disk: &mut D,
    script: Script,
) -> Result<usize, KeepStatus>
    ensures stores { IfOk result (Stores D.bytes D.may_leave script disk.old disk.new) }
    ensures any_moment { IfSome (D.bytes disk.old) (λ image.
        LeavesOnly D.moment D.left_since disk.old disk.new
        (MayBeKept (D.may_leave disk.old) script image)) }
    ensures judged { IfSome (D.bytes disk.old) (λ image. IsJudged script.start image result) }
    ensures stops { IfErr result (StopsOpening (D.faults disk.old) (D.faults disk.new)) }
{
    let Script { start, lines } = script;
    match begin(alloc, disk, start) {
        Ok(kept) => step_lines(alloc, disk, kept, &lines),
        Err(status) => Err(status),
    }
}
