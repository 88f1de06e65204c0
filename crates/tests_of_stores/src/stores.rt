//! The bytes of a store, and what is found of one that is stopped at each call of its disk.

use df_disk::{Disk, MemoryDisk};
use df_durable::{OpenCause, Opened, StepCause, Stored};
use df_journal_file::read_journal;
use df_start::Start;
use df_unit::{Call, Path, UnitName};
use std::alloc::Global;
use std::test::Fail;

/// What is found on a disk.
#[derive(Clone, Copy, Debug, PartialEq, Eq)]
pub enum Seen {
    Empty,
    Entries(usize),
    Cause(OpenCause),
}

const START: &[u8] = b"defcon-journal 1\nunit 0 {|}\nrun\n";

/// Writes a piece at a place of a disk.
pub fn put(disk: &mut MemoryDisk, at: usize, piece: &[u8]) -> Result<(), Fail> {
    if at > disk.bytes().len() {
        return Err("a place".into());
    }
    match disk.write_at(at as u64, piece) {
        Ok(()) => Ok(()),
        Err(_) => Err("a write".into()),
    }
}

/// A disk with room, and these bytes, of which none is pending.
pub fn disk_of(alloc: Global, bytes: &[u8]) -> Result<MemoryDisk, Fail> {
    let mut disk = MemoryDisk::new(alloc, 4096, 64)?;
    put(&mut disk, 0, bytes)?;
    disk.sync().ok().ok_or("a sync")?;
    Ok(disk)
}

fn start(alloc: Global) -> Result<Start, Fail> {
    let (start, entries) = read_journal(alloc, START).ok().ok_or("a start")?;
    drop(entries);
    Ok(start)
}

fn root() -> UnitName {
    UnitName::Root(Path::root(0))
}

/// Opens a disk, and tells what is found.
pub fn found_on(alloc: Global, disk: MemoryDisk) -> Seen {
    match Stored::open(alloc, disk) {
        Ok(Opened::Empty(disk)) => {
            drop(disk);
            Seen::Empty
        }
        Ok(Opened::Kept(stored)) => {
            let count = stored.core().journal().len();
            drop(stored);
            Seen::Entries(count)
        }
        Err(refused) => {
            let cause = refused.cause;
            drop(refused);
            Seen::Cause(cause)
        }
    }
}

/// What is found on a disk with these bytes.
fn found_in(alloc: Global, bytes: &[u8]) -> Result<Seen, Fail> {
    Ok(found_on(alloc, disk_of(alloc, bytes)?))
}

/// Makes one call, and tells why not, where it was refused.
fn refusal(stored: &mut Stored<MemoryDisk>) -> Option<StepCause> {
    match stored.step(&root(), Call::CreateEvent) {
        Ok(reply) => {
            drop(reply);
            None
        }
        Err(refused) => {
            let cause = refused.cause;
            drop(refused);
            Some(cause)
        }
    }
}

/// Makes one call, and gives the disk back. After a call that failed, a further one is Closed.
fn stepped(mut stored: Stored<MemoryDisk>) -> Result<MemoryDisk, Fail> {
    let first = refusal(&mut stored);
    let second = match first {
        Some(_) => refusal(&mut stored),
        None => None,
    };
    let disk = stored.into_disk();
    match (first, second) {
        (None, _) | (Some(StepCause::DiskFault), Some(StepCause::Closed)) => Ok(disk),
        _ => Err("a fault, and a closed store".into()),
    }
}

/// Creates a store on a disk of which one call fails, makes a call, and gives the disk back.
fn create_and_step(alloc: Global, failing: u64) -> Result<MemoryDisk, Fail> {
    let start = start(alloc)?;
    let mut disk = MemoryDisk::new(alloc, 4096, 64)?;
    disk.fail(failing)?;
    match Stored::create(alloc, disk, start) {
        Ok(stored) => stepped(stored),
        Err(refused) => Ok(refused.disk),
    }
}

/// Opens a disk and makes one call, and gives the disk back.
fn open_and_step(alloc: Global, disk: MemoryDisk) -> Result<MemoryDisk, Fail> {
    match Stored::open(alloc, disk) {
        Ok(Opened::Kept(stored)) => stepped(stored),
        Ok(Opened::Empty(disk)) => {
            drop(disk);
            Err("a kept store".into())
        }
        Err(refused) => {
            drop(refused);
            Err("a kept store".into())
        }
    }
}

/// A store with one entry, 72 bytes.
fn one_entry(alloc: Global) -> Result<Vec<u8>, Fail> {
    let disk = create_and_step(alloc, 0)?;
    Ok(Vec::from_slice(alloc, disk.bytes())?)
}

/// Whether a piece stands at a place.
fn stands(bytes: &[u8], at: usize, piece: &[u8]) -> bool {
    match bytes.get(at..) {
        Some(rest) => rest.starts_with(piece),
        None => false,
    }
}

#[test]
fn a_store_has_these_bytes(rt: HostRuntime) -> Result<(), Fail> {
    let bytes = one_entry(rt.alloc())?;
    assert_eq!(rt; bytes.len(), 72);
    assert!(rt; stands(&bytes, 0, &[1, 0, 0, 0, 0, 0, 0, 0, 32]));
    assert!(rt; stands(&bytes, 9, START));
    assert!(rt; stands(&bytes, 41, &[1, 0, 0, 0, 0, 0, 0, 0, 21]));
    assert!(rt; stands(&bytes, 50, b"0 create -> handle 0\n"));
    assert!(rt; stands(&bytes, 71, &[0]));
    Ok(())
}

#[test]
fn a_stop_at_each_call_leaves_one_of_two_journals(rt: HostRuntime) -> Result<(), Fail> {
    let alloc = rt.alloc();
    // create asks for the size, writes the first gate, syncs, and appends the start by a write, a
    // sync, a write and a sync; the step does the same four for its entry
    for (call, found) in [
        (1, Seen::Empty),
        (2, Seen::Empty),
        (3, Seen::Empty),
        (4, Seen::Empty),
        (5, Seen::Empty),
        (6, Seen::Empty),
        (7, Seen::Entries(0)),
        (8, Seen::Entries(0)),
        (9, Seen::Entries(0)),
        (10, Seen::Entries(0)),
        (11, Seen::Entries(1)),
        (12, Seen::Cause(OpenCause::DiskFault)),
    ] {
        let disk = create_and_step(alloc, call)?;
        assert_eq!(rt; found_on(alloc, disk), found, "{call}");
    }
    Ok(())
}

/// The bytes with others at a place.
fn changed(alloc: Global, bytes: &[u8], at: usize, piece: &[u8]) -> Result<Vec<u8>, Fail> {
    let mut disk = disk_of(alloc, bytes)?;
    put(&mut disk, at, piece)?;
    Ok(Vec::from_slice(alloc, disk.bytes())?)
}

#[test]
fn torn_writes_leave_one_of_two_journals(rt: HostRuntime) -> Result<(), Fail> {
    let alloc = rt.alloc();
    let whole = one_entry(alloc)?;
    let closed = changed(alloc, &whole, 41, &[0])?;
    // the first write stands behind the closed gate at 41: up to each place, and with other bytes
    for end in 42..=72 {
        let front = closed.get(..end).ok_or("a front")?;
        assert_eq!(rt; found_in(alloc, front)?, Seen::Entries(0), "{end}");
        let torn = changed(alloc, front, 42, &[1; 30])?;
        assert_eq!(rt; found_in(alloc, &torn)?, Seen::Entries(0), "{end}");
    }
    // the gate may hold any byte
    for (gate, found) in [(0, 0), (1, 1), (2, 0), (255, 0)] {
        let torn = changed(alloc, &whole, 41, &[gate])?;
        assert_eq!(rt; found_in(alloc, &torn)?, Seen::Entries(found), "{gate}");
    }
    Ok(())
}

#[test]
fn damage_is_named_by_its_gate(rt: HostRuntime) -> Result<(), Fail> {
    let alloc = rt.alloc();
    let whole = one_entry(alloc)?;
    let front = |end| whole.get(..end);
    for (end, found) in [
        (0, Seen::Empty),
        (1, Seen::Empty),
        (2, Seen::Cause(OpenCause::Damaged { at: 0 })),
        (9, Seen::Cause(OpenCause::Damaged { at: 0 })),
        (41, Seen::Cause(OpenCause::Damaged { at: 0 })),
        (42, Seen::Cause(OpenCause::Damaged { at: 41 })),
        (71, Seen::Cause(OpenCause::Damaged { at: 41 })),
        (72, Seen::Entries(1)),
    ] {
        let bytes = front(end).ok_or("a front")?;
        assert_eq!(rt; found_in(alloc, bytes)?, found, "{end}");
    }
    for (at, byte, found) in [
        (0, 0, Seen::Empty),
        (8, 33, Seen::Cause(OpenCause::Damaged { at: 0 })),
        (20, b'x', Seen::Cause(OpenCause::Damaged { at: 0 })),
        (50, b'1', Seen::Cause(OpenCause::Damaged { at: 41 })),
        (69, b'1', Seen::Cause(OpenCause::Damaged { at: 41 })),
        (71, 7, Seen::Entries(1)),
        (72, 9, Seen::Entries(1)),
    ] {
        let bytes = changed(alloc, &whole, at, &[byte])?;
        assert_eq!(rt; found_in(alloc, &bytes)?, found, "{at}");
    }
    Ok(())
}

#[test]
fn an_opened_store_goes_on(rt: HostRuntime) -> Result<(), Fail> {
    let alloc = rt.alloc();
    let disk = open_and_step(alloc, disk_of(alloc, &one_entry(alloc)?)?)?;
    assert_eq!(rt; disk.bytes().len(), 102);
    assert_eq!(rt; found_on(alloc, disk), Seen::Entries(2));
    Ok(())
}
