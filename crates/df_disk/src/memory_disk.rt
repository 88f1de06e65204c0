ghost use Rattle.std.specs.Prelude.{◌≡◌, ◌↔◌, ◌+◌, ◌-◌, ◌<◌, ◌≤◌, ◌++◌, ◌∷◌, [], length, min, take, drop, if◌then◌else◌, Contains, OnOk, OnErr, IfOk, IsTrue, vec_len, vec_capacity};
ghost use Rattle.df_io.specs.Faults.{count_more};
ghost use Rattle.df_disk.specs.Disk.{overwritten};
ghost use Rattle.df_disk.specs.MemoryDisk.{FailsCall, bytes_after, looked, made, refused, synced, wrote};

use crate::{Disk, DiskFailed};
use df_memory::NoMemory;
use std::alloc::Global;
use std::marker::Model;

/// A call as it is kept: a write with the number of its bytes, and whether it was done.
#[derive(Clone, Copy, Debug)]
pub(crate) enum Call {
    Looked,
    Synced,
    Wrote { at: u64, len: usize, done: bool },
}

/// A disk in memory that keeps its calls, in room that it takes when it is made. Chosen calls
/// fail, and one that finds no room is a fault. A write that fails isn't read, but a crash may
/// leave any bytes in its range.
#[derive(Debug, Drop)]
pub struct MemoryDisk {
    bytes: Vec<u8>,
    pieces: Vec<u8>,
    calls: Vec<Call>,
    failing: Vec<u64>,
    room: usize,
    calls_left: usize,
    faults: u64,
}

impl Model for MemoryDisk {
    ghost use Rattle.std.specs.Prelude.{◌≡◌, ◌+◌, ◌≤◌, length, vec_len, vec_capacity};
    ghost use Rattle.df_disk.specs.MemoryDisk.{DiskState, bytes_after, past_of, total};

    ghost Value = { DiskState };

    ghost view = { λ d. record {
      past = past_of d.calls.items d.pieces.items;
      failing = d.failing.items;
      room = d.room;
      calls_left = d.calls_left;
      faults = d.faults;
    } };

    ghost invariant = { λ d. (total d.calls.items ≡ length d.pieces.items)
        × (d.bytes.items ≡ bytes_after (past_of d.calls.items d.pieces.items))
        × (vec_len d.pieces + d.room ≤ vec_capacity d.pieces)
        × (vec_len d.bytes + d.room ≤ vec_capacity d.bytes)
        × (vec_len d.calls + d.calls_left ≤ vec_capacity d.calls) };
}

/// Keeps a call, in room that is there.
fn keep(calls: &mut Vec<Call>, call: Call)
    requires { vec_len calls.old < vec_capacity calls.old }
    ensures items { calls.new.items ≡ calls.old.items ++ call ∷ [] }
    ensures len { vec_len calls.new ≡ vec_len calls.old + 1 }
    ensures capacity { vec_capacity calls.old ≤ vec_capacity calls.new }
{
    match calls.push(call) {
        Ok(()) => (),
        Err(_) => unreachable!(),
    }
}

/// Appends a piece, in room that is there.
fn extend(bytes: &mut Vec<u8>, piece: &[u8])
    requires { vec_len bytes.old + length piece.now ≤ vec_capacity bytes.old }
    ensures items { bytes.new.items ≡ bytes.old.items ++ piece.now }
    ensures len { vec_len bytes.new ≡ vec_len bytes.old + length piece.now }
    ensures capacity { vec_capacity bytes.old ≤ vec_capacity bytes.new }
{
    match bytes.extend_from_slice(piece) {
        Ok(()) => (),
        Err(_) => unreachable!(),
    }
}

/// Writes a piece over what is there and past the end, in room that is there.
fn overwrite(bytes: &mut Vec<u8>, at: usize, piece: &[u8])
    requires place { at ≤ vec_len bytes.old }
    requires room { vec_len bytes.old + length piece.now ≤ vec_capacity bytes.old }
    ensures items { bytes.new.items ≡ overwritten at piece.now bytes.old.items }
    ensures capacity { vec_capacity bytes.old ≤ vec_capacity bytes.new }
    ensures grown { vec_len bytes.new ≤ vec_len bytes.old + length piece.now }
{
    let inside = piece.len().min(bytes.len() - at);
    bytes[at..at + inside].copy_from_slice(&piece[..inside]);
    extend(bytes, &piece[inside..]);
}

/// Does a write, in room that is there, or leaves it undone.
fn overwrite_if(bytes: &mut Vec<u8>, at: usize, piece: &[u8], done: bool)
    requires place { at ≤ vec_len bytes.old }
    requires room { vec_len bytes.old + length piece.now ≤ vec_capacity bytes.old }
    ensures items { bytes.new.items
        ≡ (if done then overwritten at piece.now bytes.old.items else bytes.old.items) }
    ensures capacity { vec_capacity bytes.old ≤ vec_capacity bytes.new }
    ensures grown { vec_len bytes.new ≤ vec_len bytes.old + length piece.now }
{
    if done {
        overwrite(bytes, at, piece);
    }
}

fn is_failing(failing: &[u64], call: u64) -> bool
    ensures { IsTrue result ↔ Contains failing.now call }
{
    failing.contains(&call)
}

impl MemoryDisk {
    /// An empty disk with room for so many bytes, over all its writes together, and so many calls.
    pub fn new(alloc: Global, room: usize, calls: usize) -> Result<MemoryDisk, NoMemory>
        ensures { IfOk result (λ d. d ≡ record {
          past = [];
          failing = [];
          room = room;
          calls_left = calls;
          faults = 0;
        }) }
    {
        Ok(MemoryDisk {
            bytes: Vec::with_capacity(alloc, room)?,
            pieces: Vec::with_capacity(alloc, room)?,
            calls: Vec::with_capacity(alloc, calls)?,
            failing: Vec::new(alloc),
            room,
            calls_left: calls,
            faults: 0,
        })
    }

    /// Lets a call fail. The first is call 1.
    pub fn fail(&mut self, call: u64) -> Result<(), NoMemory>
        ensures fails { OnOk result (self.new
            ≡ record self.old { failing = self.old.failing ++ call ∷ [] }) }
        ensures unchanged { OnErr result (self.new ≡ self.old) }
    {
        self.failing.push(call)?;
        Ok(())
    }

    /// What a read gives.
    pub fn bytes(&self) -> &[u8]
        ensures { result.now ≡ bytes_after self.now.past }
    {
        self.bytes.as_slice()
    }

    /// The number of the next call.
    fn next(&self) -> u64
        requires { 0 < self.now.calls_left }
        ensures { result ≡ length self.now.past + 1 }
    {
        self.calls.as_slice().len() as u64 + 1
    }

    /// Whether the next call is to fail, or finds no room.
    fn fails(&self) -> bool
        ensures { IsTrue result ↔ FailsCall self.now }
    {
        self.calls_left == 0 || is_failing(&self.failing, self.next())
    }

    /// Keeps a call that looks at the disk.
    fn look(&mut self)
        requires { 0 < self.old.calls_left }
        ensures { self.new ≡ made looked self.old }
    {
        keep(&mut self.calls, Call::Looked);
        self.calls_left -= 1;
    }

    /// Keeps a sync that was done.
    fn settle(&mut self)
        requires { 0 < self.old.calls_left }
        ensures { self.new ≡ made synced self.old }
    {
        keep(&mut self.calls, Call::Synced);
        self.calls_left -= 1;
    }

    /// Counts a fault.
    fn count(&mut self) -> DiskFailed
        ensures counted { self.new ≡ record self.old { faults = count_more self.old.faults } }
        ensures never_falls { self.old.faults ≤ self.new.faults }
    {
        self.faults = self.faults.saturating_add(1);
        DiskFailed
    }

    /// Counts a fault, and keeps the call where there is room.
    fn refuse(&mut self) -> DiskFailed
        ensures refused { self.new ≡ refused self.old }
        ensures never_falls { self.old.faults ≤ self.new.faults }
    {
        if self.calls_left > 0 {
            self.look();
        }
        self.count()
    }

    /// Keeps a write, and does it or leaves it undone.
    fn put(&mut self, at: u64, piece: &[u8], done: bool)
        requires place { at ≤ length (bytes_after self.old.past) }
        requires room { length piece.now ≤ self.old.room }
        requires calls { 0 < self.old.calls_left }
        ensures { self.new ≡ record (made (wrote at piece.now done) self.old) {
          room = self.old.room - length piece.now;
        } }
    {
        let len = piece.len();
        extend(&mut self.pieces, piece);
        keep(&mut self.calls, Call::Wrote { at, len, done });
        overwrite_if(&mut self.bytes, at as usize, piece, done);
        self.room -= len;
        self.calls_left -= 1;
    }
}

impl Disk for MemoryDisk {
    ghost use Rattle.std.specs.Prelude.{Some, length};
    ghost use Rattle.df_disk.specs.MemoryDisk.{LeftSince, MayLeave, bytes_after, counts_now, may_stay, only_now};

    ghost bytes = { λ d. Some (bytes_after d.past) };

    ghost may_leave = { λ d. MayLeave d.past };

    ghost moment = { λ d. length d.past };

    ghost left_since = { λ d. LeftSince d.past };

    ghost faults = { λ d. d.faults };

    ghost may_stay = { λ d. may_stay d.past };

    ghost counts_now = { λ d t c le now. counts_now d.past t c le now };

    ghost only_now = { λ d c left. only_now d.past c left };

    fn size(&mut self) -> Result<u64, DiskFailed> {
        if self.fails() {
            return Err(self.refuse());
        }
        self.look();
        Ok(self.bytes.len() as u64)
    }

    fn read_at(&mut self, at: u64, into: &mut [u8]) -> Result<usize, DiskFailed> {
        if self.fails() {
            return Err(self.refuse());
        }
        self.look();
        Ok(copy_piece(&self.bytes, at as usize, into))
    }

    fn write_at(&mut self, at: u64, piece: &[u8]) -> Result<(), DiskFailed> {
        if self.calls_left == 0 || self.room < piece.len() {
            return Err(self.refuse());
        }
        let done = !self.fails();
        self.put(at, piece, done);
        if done {
            return Ok(());
        }
        Err(self.count())
    }

    fn sync(&mut self) -> Result<(), DiskFailed> {
        if self.fails() {
            return Err(self.refuse());
        }
        self.settle();
        Ok(())
    }
}

/// Copies the bytes from a place on, as many as there are and the buffer has room for.
fn copy_piece(bytes: &[u8], at: usize, into: &mut [u8]) -> usize
    ensures within { result ≤ length into.new }
    ensures piece { take result into.new ≡ take result (drop at bytes.now) }
    ensures count { result ≡ min (length into.old) (length bytes.now - at) }
{
    if at >= bytes.len() {
        return 0;
    }
    let count = into.len().min(bytes.len() - at);
    into[..count].copy_from_slice(&bytes[at..at + count]);
    count
}
