//! Seats in order, in chunks: where a unit's seat is, and one more seat.

ghost use Rattle.std.specs.Prelude.{◌≡◌, ◌+◌, ◌<◌, ◌≤◌, [], ◌∷◌, List, None, Some, true, IfNone, IfSome, OnOk, drop, is_some, length, option_copied, slice_get, slice_index_or, take, vec_capacity, vec_len};
ghost use Rattle.std.specs.List.{insert};
ghost use Rattle.df_label.specs.Ascending.{IsAscending, IsBelow};
ghost use Rattle.df_unit.specs.UnitOrder.{unit_cmp};
ghost use Rattle.df_roll.specs.Chunks.{AreFilled, AreOrdered, IsAbove, IsPut, first_cmp, joined, place_in};
ghost use Rattle.df_roll.specs.Roll.{names_in, seat_of};
ghost use Rattle.df_roll.specs.declared.seat.Seat.{Seat};

use crate::chunk::{Chunk, HALF};
use crate::seat::{Seat, seat_at};
use df_memory::NoMemory;
use df_unit::UnitName;
use std::alloc::Global;
use std::cmp::Ordering;

/// A place in a chunk.
#[derive(Clone, Copy)]
pub struct Spot {
    pub chunk: usize,
    pub at: usize,
}

/// How a chunk's first seat and a unit stand to each other.
fn compare_first(chunk: &Chunk, name: &UnitName) -> Ordering
    ensures { result ≡ first_cmp chunk.now name.now }
{
    match chunk.as_slice().first() {
        Some(seat) => seat.unit.cmp(name),
        None => Ordering::Less,
    }
}

/// The chunk in which a unit's seat is, or would be.
fn chunk_at(chunks: &[Chunk], name: &UnitName) -> usize
    requires some { 0 < length chunks.now }
    requires ordered { AreOrdered chunks.now }
    ensures within { result < length chunks.now }
    ensures lower { IsAbove name.now (names_in (joined (take result chunks.now))) }
    ensures higher { IsBelow unit_cmp name.now
        (names_in (joined (drop (result + 1) chunks.now))) }
{
    match chunks.binary_search_by(|chunk| compare_first(chunk, name)) {
        Ok(k) => k,
        Err(0) => 0,
        Err(k) => k - 1,
    }
}

/// The root's number, where the unit is a root.
fn root_number(name: &UnitName) -> Option<usize> {
    let UnitName::Root(path) = name else {
        return None;
    };
    let [root] = path.as_slice() else {
        return None;
    };
    Some(*root as usize)
}

/// The seat that is a root's where only roots came, in their order, so that all chunks but the last
/// are half full. Else it may be another unit's.
fn guessed<'a>(chunks: &'a [Chunk], name: &UnitName) -> Option<&'a Seat>
    ensures { AreOrdered chunks.now → IfSome result (λ seat.
        seat_of seat.now.unit (joined chunks.now) ≡ Some seat.now.place) }
{
    let root = root_number(name)?;
    let last = chunks.len().checked_sub(1)?;
    let chunk = last.min(root / HALF);
    let at = root - chunk * HALF;
    let seats = chunks[chunk].as_slice();
    if at < seats.len() {
        Some(&seats[at])
    } else {
        None
    }
}

/// The place of a unit's row.
pub fn place_of(chunks: &[Chunk], name: &UnitName) -> Option<usize>
    requires { AreOrdered chunks.now }
    ensures { result ≡ seat_of name.now (joined chunks.now) }
{
    match guessed(chunks, name) {
        Some(seat) if seat.unit.same(name) => Some(seat.place),
        _ => searched_place(chunks, name),
    }
}

/// The place of a unit's row, found by the order of units.
fn searched_place(chunks: &[Chunk], name: &UnitName) -> Option<usize>
    requires { AreOrdered chunks.now }
    ensures { result ≡ seat_of name.now (joined chunks.now) }
{
    if chunks.is_empty() {
        return None;
    }
    let seats = chunks[chunk_at(chunks, name)].as_slice();
    match seat_at(seats, name) {
        Ok(k) => Some(seats[k].place),
        Err(_) => None,
    }
}

/// Where the seat of a unit belongs that has none.
pub fn gap_at(chunks: &[Chunk], name: &UnitName) -> Option<Spot>
    requires some { 0 < length chunks.now }
    requires ordered { AreOrdered chunks.now }
    ensures present { IfNone result (is_some (seat_of name.now (joined chunks.now)) ≡ true) }
    ensures absent { IfSome result (λ s. seat_of name.now (joined chunks.now) ≡ None) }
    ensures chunk { IfSome result (λ s. s.chunk < length chunks.now) }
    ensures at { IfSome result (λ s. (d : List Seat) →
        s.at ≤ length (slice_index_or chunks.now s.chunk d)) }
    ensures between { IfSome result (λ s. IsAscending unit_cmp
        (insert (names_in (joined chunks.now)) (place_in chunks.now s.chunk s.at) name.now)) }
{
    let chunk = chunk_at(chunks, name);
    match seat_at(chunks[chunk].as_slice(), name) {
        Ok(_) => None,
        Err(at) => Some(Spot { chunk, at }),
    }
}

/// The unit at a place.
pub fn unit_at(chunks: &[Chunk], k: usize) -> Option<&UnitName>
    ensures { option_copied result ≡ slice_get (names_in (joined chunks.now)) k }
{
    let mut rest = k;
    for chunk in chunks {
        let seats = chunk.as_slice();
        if rest < seats.len() {
            return Some(&seats[rest].unit);
        }
        rest -= seats.len();
    }
    None
}

/// Makes so many spare chunks, and lets go those beyond.
pub fn stock(alloc: Global, spare: &mut Vec<Chunk>, n: usize) -> Result<(), NoMemory>
    ensures { OnOk result (n ≤ vec_len spare.new) }
{
    spare.truncate(n);
    for _ in spare.len()..n {
        spare.push(Chunk::new(alloc)?)?;
    }
    Ok(())
}

/// Begins with one seat, in a spare chunk. Takes no memory.
pub fn begin(chunks: &mut Vec<Chunk>, spare: &mut Vec<Chunk>, seat: Seat)
    requires none { vec_len chunks.old ≡ 0 }
    requires room { vec_len chunks.old < vec_capacity chunks.old }
    requires spare { 0 < vec_len spare.old }
    ensures seats { joined chunks.new.items ≡ seat ∷ [] }
    ensures filled { AreFilled chunks.new.items }
    ensures spare { vec_len spare.old ≤ vec_len spare.new + 1 }
    ensures count { vec_len chunks.new ≤ vec_len chunks.old + 1 }
    ensures capacity { vec_capacity chunks.old ≤ vec_capacity chunks.new }
{
    let Some(mut first) = spare.pop() else {
        unreachable!();
    };
    first.begin(seat);
    chunks.push_reserved(first);
}

/// Puts a seat at a place in a full chunk, whose upper half moves into a spare one. Takes no
/// memory.
fn put_in_full(chunks: &mut Vec<Chunk>, spare: &mut Vec<Chunk>, spot: Spot, seat: Seat)
    requires chunk { spot.chunk < length chunks.old.items }
    requires full { (d : List Seat) →
        length (slice_index_or chunks.old.items spot.chunk d) ≡ 32 }
    requires at { spot.at ≤ 32 }
    requires room { vec_len chunks.old < vec_capacity chunks.old }
    requires spare { 0 < vec_len spare.old }
    ensures put { IsPut spot.chunk spot.at seat chunks.old.items chunks.new.items }
    ensures spare { vec_len spare.old ≤ vec_len spare.new + 1 }
    ensures count { vec_len chunks.new ≤ vec_len chunks.old + 1 }
    ensures capacity { vec_capacity chunks.old ≤ vec_capacity chunks.new }
{
    let Some(mut upper) = spare.pop() else {
        unreachable!();
    };
    chunks[spot.chunk].put_halved(&mut upper, spot.at, seat);
    match chunks.insert(spot.chunk + 1, upper) {
        Ok(()) => {}
        Err(_) => unreachable!(),
    }
}

/// Puts a seat at a place in a chunk; of a full one, the upper half moves into a spare one. Takes
/// no memory.
pub fn put(chunks: &mut Vec<Chunk>, spare: &mut Vec<Chunk>, spot: Spot, seat: Seat)
    requires chunk { spot.chunk < length chunks.old.items }
    requires at { (d : List Seat) →
        spot.at ≤ length (slice_index_or chunks.old.items spot.chunk d) }
    requires room { vec_len chunks.old < vec_capacity chunks.old }
    requires spare { 0 < vec_len spare.old }
    ensures put { IsPut spot.chunk spot.at seat chunks.old.items chunks.new.items }
    ensures spare { vec_len spare.old ≤ vec_len spare.new + 1 }
    ensures count { vec_len chunks.new ≤ vec_len chunks.old + 1 }
    ensures capacity { vec_capacity chunks.old ≤ vec_capacity chunks.new }
{
    if chunks[spot.chunk].is_full() {
        put_in_full(chunks, spare, spot, seat);
    } else {
        chunks[spot.chunk].put(spot.at, seat);
    }
}
