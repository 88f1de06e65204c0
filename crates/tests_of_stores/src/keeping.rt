//! Runs of scripts on a kept journal: each status, and each call of the disk at which a run stops.
use crate::stores::{Seen, disk_of, found_on, put};
use df_disk::MemoryDisk;
use df_io::{MemoryShelf, MemorySink};
use df_keep::{KeepStatus, run_keep};
use df_lines::BadKind;
use std::alloc::Global;
use std::test::Fail;

/// How a run ended, and whether it wrote this text.
#[derive(Clone, Copy, Debug, PartialEq, Eq)]
struct End {
    status: KeepStatus,
    wrote: bool,
}

const CREATE: &[u8] = b"defcon-script 1\nunit 0 {|}\nrun\n0 create\n";

/// How a run ends that writes its whole text.
const DONE: End = End {
    status: KeepStatus::Done,
    wrote: true,
};

/// How a run ends with this status, and writes nothing.
const fn ends(status: KeepStatus) -> End {
    End {
        status,
        wrote: true,
    }
}

/// Runs a script on a disk, and tells how that ended, and whether just this text was written.
fn run(alloc: Global, script: &[u8], disk: &mut MemoryDisk, text: &[u8]) -> Result<End, Fail> {
    let mut shelf = MemoryShelf::new(alloc);
    shelf.put("script", script)?;
    let mut out = MemorySink::new(alloc, 64, 64)?;
    let words = [
        String::from_str(alloc, "script")?,
        String::from_str(alloc, "store")?,
    ];
    let status = run_keep(alloc, &words, &mut shelf, disk, &mut out);
    let wrote = out.bytes() == text;
    Ok(End { status, wrote })
}

/// A disk with room.
fn empty(alloc: Global) -> Result<MemoryDisk, Fail> {
    Ok(MemoryDisk::new(alloc, 4096, 64)?)
}

/// The store with one entry.
fn one_entry(alloc: Global) -> Result<Vec<u8>, Fail> {
    let mut disk = empty(alloc)?;
    run(alloc, CREATE, &mut disk, b"")?;
    Ok(Vec::from_slice(alloc, disk.bytes())?)
}

#[test]
fn a_store_is_created_and_goes_on(rt: HostRuntime) -> Result<(), Fail> {
    let alloc = rt.alloc();
    let mut disk = empty(alloc)?;
    assert_eq!(rt; run(alloc, CREATE, &mut disk, b"kept 1\n")?, DONE);
    assert_eq!(rt; disk.bytes().len(), 72);
    assert_eq!(rt; run(alloc, CREATE, &mut disk, b"kept 2\n")?, DONE);
    assert_eq!(rt; disk.bytes().len(), 102);
    Ok(())
}

#[test]
fn what_stands_behind_the_last_gate_is_nothing(rt: HostRuntime) -> Result<(), Fail> {
    let alloc = rt.alloc();
    let mut disk = disk_of(alloc, &one_entry(alloc)?)?;
    put(&mut disk, 72, b"x")?;
    assert_eq!(rt; run(alloc, CREATE, &mut disk, b"kept 2\n")?, DONE);
    Ok(())
}

#[test]
fn another_start_and_damage_are_told(rt: HostRuntime) -> Result<(), Fail> {
    let alloc = rt.alloc();
    let whole = one_entry(alloc)?;
    let other = b"defcon-script 1\nunit 0 {#0|}\nrun\n0 create\n";
    let mut disk = disk_of(alloc, &whole)?;
    assert_eq!(rt;
        run(alloc, other, &mut disk, b"")?,
        ends(KeepStatus::StartDiffers)
    );
    put(&mut disk, 50, b"1")?;
    assert_eq!(rt;
        run(alloc, CREATE, &mut disk, b"")?,
        ends(KeepStatus::Damaged { at: 41 })
    );
    assert_eq!(rt; disk.bytes().len(), 72);
    Ok(())
}

#[test]
fn what_is_no_script_leaves_the_store(rt: HostRuntime) -> Result<(), Fail> {
    let alloc = rt.alloc();
    let mut disk = empty(alloc)?;
    let (input, line, kind) = (1, 3, BadKind::Syntax);
    let bad = b"defcon-script 1\nunit 0 {|}\nRUN\n";
    assert_eq!(rt;
        run(alloc, bad, &mut disk, b"")?,
        ends(KeepStatus::BadInput { input, line, kind })
    );
    assert_eq!(rt; disk.bytes().len(), 0);
    Ok(())
}

/// Runs the script on a disk of which one call fails, and gives what is found then.
fn stopped(alloc: Global, mut disk: MemoryDisk, call: u64) -> Result<Seen, Fail> {
    disk.fail(call)?;
    let end = run(alloc, CREATE, &mut disk, b"")?;
    if end != ends(KeepStatus::DiskFault) {
        return Err("a fault".into());
    }
    Ok(found_on(alloc, disk))
}

#[test]
fn a_run_stops_at_each_call_of_a_new_store(rt: HostRuntime) -> Result<(), Fail> {
    let alloc = rt.alloc();
    // opening syncs and asks for the size; creating asks for it, writes and syncs a gate, and
    // appends by a write, a sync, a write and a sync; so does the step
    for (call, found) in [
        (1, Seen::Empty),
        (2, Seen::Empty),
        (3, Seen::Empty),
        (4, Seen::Empty),
        (5, Seen::Empty),
        (6, Seen::Empty),
        (7, Seen::Empty),
        (8, Seen::Empty),
        (9, Seen::Entries(0)),
        (10, Seen::Entries(0)),
        (11, Seen::Entries(0)),
        (12, Seen::Entries(0)),
        (13, Seen::Entries(1)),
    ] {
        assert_eq!(rt; stopped(alloc, empty(alloc)?, call)?, found, "{call}");
    }
    Ok(())
}

#[test]
fn a_run_stops_at_each_call_of_an_old_store(rt: HostRuntime) -> Result<(), Fail> {
    let alloc = rt.alloc();
    let whole = one_entry(alloc)?;
    // the disk was written and synced; opening syncs, asks for the size and reads; then the step
    for (call, found) in [(3, 1), (4, 1), (5, 1), (6, 1), (7, 1), (8, 1), (9, 2)] {
        let disk = disk_of(alloc, &whole)?;
        assert_eq!(rt; stopped(alloc, disk, call)?, Seen::Entries(found), "{call}");
    }
    Ok(())
}
