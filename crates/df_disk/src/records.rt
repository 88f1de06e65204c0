//! Records behind gates. A gate is one byte, open where it is 1. Behind an open gate stand eight
//! bytes with the length, the greatest first, the record's bytes, and the next gate.
ghost use Rattle.std.specs.Prelude.{◌≡◌, ℕ, ◌+◌, ◌-◌, ◌^◌, ◌<◌, ◌++◌, ◌∷◌, [], List, length, drop, None, Some, IfOk, IfSome, OnOk};
ghost use Rattle.std.specs.Int.{w64, to_be_bytes};
ghost use Rattle.df_io.specs.Faults.{Counts};
ghost use Rattle.df_disk.specs.Disk.{IsSettled, LeavesOnly, Only};
ghost use Rattle.df_disk.specs.Found.{IsBehind, IsFound};
ghost use Rattle.df_disk.specs.Records.{IsAtRest, IsEmpty, KeepsOrOneMore, frame_text};

use crate::{Disk, DiskFailed};
use df_memory::NoMemory;
use std::alloc::Global;

/// The byte of a gate that is open.
const OPEN: u8 = 1;

/// The byte that is written for a gate that isn't open.
const CLOSED: u8 = 0;

/// What stands at a gate.
#[derive(Clone, Copy, Debug)]
pub enum Found<'a> {
    /// The gate isn't open.
    Closed,
    /// The gate is open, but no whole record with a gate behind it follows.
    Broken,
    /// The gate is open, and these are the record's bytes.
    Whole(&'a [u8]),
}

/// The number that these eight bytes spell.
fn count_of(bytes: &[u8]) -> u64
    requires { length bytes.now ≡ 8 }
    ensures { to_be_bytes w64 result ≡ bytes.now }
{
    u64::from_be_bytes([
        bytes[0], bytes[1], bytes[2], bytes[3], bytes[4], bytes[5], bytes[6], bytes[7],
    ])
}

/// What stands behind an open gate.
fn found_behind(tail: &[u8]) -> Found<'_>
    ensures { IsBehind tail.now result }
{
    if tail.len() < 8 {
        return Found::Broken;
    }
    let (number, body) = tail.split_at(8);
    let count = count_of(number);
    if body.len() as u64 <= count {
        return Found::Broken;
    }
    Found::Whole(&body[..count as usize])
}

/// What stands at the gate at a place of an image.
pub fn found_at(image: &[u8], gate: usize) -> Found<'_>
    requires { gate < length image.now }
    ensures { IsFound (drop gate image.now) result }
{
    if image[gate] != OPEN {
        return Found::Closed;
    }
    found_behind(&image[gate + 1..])
}

/// What is written behind a closed gate to append a record.
pub fn frame(alloc: Global, body: &[u8]) -> Result<Vec<u8>, NoMemory>
    ensures { IfOk result (λ v. v.items ≡ frame_text body.now) }
{
    let mut bytes = Vec::new(alloc);
    bytes.extend_from_slice(&(body.len() as u64).to_be_bytes())?;
    bytes.extend_from_slice(body)?;
    bytes.push(CLOSED)?;
    Ok(bytes)
}

/// Puts a closed gate on an empty disk, unless one stands there.
pub fn begin<D: Disk>(disk: &mut D) -> Result<(), DiskFailed>
    requires empty { IfSome (D.bytes disk.old) IsEmpty }
    requires settled { IsSettled (D.bytes disk.old) (D.may_leave disk.old) }
    ensures begun { OnOk result (IfSome (D.bytes disk.old) (λ _.
        IsAtRest D.bytes D.may_leave disk.new [] 0)) }
    ensures untold { D.bytes disk.old ≡ None → D.bytes disk.new ≡ None }
    ensures any_moment { IfSome (D.bytes disk.old) (λ _.
        LeavesOnly D.moment D.left_since disk.old disk.new IsEmpty) }
    ensures cause { Counts (D.faults disk.old) (D.faults disk.new) result }
{
    if disk.size()? > 1 {
        return Ok(());
    }
    disk.write_at(0, &[CLOSED])?;
    disk.sync()
}

/// Appends a record behind the closed gate at a place: all of it is on the disk before the gate is
/// opened, by a write of its own, and the open gate is on the disk before the answer.
pub fn append<D: Disk>(disk: &mut D, gate: u64, frame: &[u8]) -> Result<(), DiskFailed>
    requires place { IfSome (D.bytes disk.old) (λ bs. gate < length bs) }
    requires small { gate < 2 ^ 64 - 1 }
    ensures kept { (records : List (List ℕ)) (bytes : List ℕ) → frame.now ≡ frame_text bytes →
        IsAtRest D.bytes D.may_leave disk.old records gate → OnOk result
        (IsAtRest D.bytes D.may_leave disk.new (records ++ bytes ∷ []) (gate + length frame.now)) }
    ensures any_moment { (records : List (List ℕ)) (bytes : List ℕ) →
        frame.now ≡ frame_text bytes →
        IsAtRest D.bytes D.may_leave disk.old records gate →
        LeavesOnly D.moment D.left_since disk.old disk.new (KeepsOrOneMore records bytes) }
    ensures untold { D.bytes disk.old ≡ None → D.bytes disk.new ≡ None }
    ensures cause { Counts (D.faults disk.old) (D.faults disk.new) result }
{
    disk.write_at(gate + 1, frame)?;
    disk.sync()?;
    disk.write_at(gate, &[OPEN])?;
    disk.sync()
}
