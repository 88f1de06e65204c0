//! A few seats in a row, with room for a fixed number.

ghost use Rattle.std.specs.Prelude.{◌≡◌, ◌+◌, ◌<◌, ◌≤◌, ◌++◌, [], ◌∷◌, IfOk, IsTrue, ◌↔◌, length, reverse, vec_capacity, vec_len};
ghost use Rattle.std.specs.List.{insert};

use crate::seat::Seat;
use df_memory::NoMemory;
use std::alloc::Global;
use std::marker::Model;

/// How many seats a chunk has at most.
const MOST: usize = 32;

/// How many stay when a full chunk is halved.
pub const HALF: usize = MOST / 2;

/// Seats in a row, with room for as many as a chunk has at most.
#[derive(Drop)]
pub struct Chunk {
    seats: Vec<Seat>,
}

impl Model for Chunk {
    ghost use Rattle.std.specs.Prelude.{List, ◌≤◌, vec_capacity, vec_len};
    ghost use Rattle.std.specs.Coded.{coded_list};
    ghost use Rattle.df_roll.specs.contracts.seat.Seat as seat;
    ghost use Rattle.df_roll.specs.declared.seat.Seat.{Seat};

    ghost Value = { List Seat };

    ghost coded = { coded_list seat.the_row.coded };

    ghost view = { λ c. c.seats.items };

    ghost invariant = { λ c. (vec_len c.seats ≤ 32) × (32 ≤ vec_capacity c.seats) };
}

/// Moves the last seats of a full row into one that has none, the last of them first.
fn pour(lower: &mut Vec<Seat>, upper: &mut Vec<Seat>)
    requires full { vec_len lower.old ≡ 32 }
    requires none { vec_len upper.old ≡ 0 }
    requires room { 32 ≤ vec_capacity upper.old }
    ensures seats { lower.new.items ++ reverse upper.new.items ≡ lower.old.items }
    ensures lower { vec_len lower.new ≡ 16 }
    ensures upper { vec_len upper.new ≡ 16 }
    ensures lower_room { vec_capacity lower.new ≡ vec_capacity lower.old }
    ensures upper_room { vec_capacity upper.new ≡ vec_capacity upper.old }
{
    for _ in 0..HALF {
        if let Some(seat) = lower.pop() {
            upper.push_reserved(seat);
        }
    }
}

impl Chunk {
    /// A chunk without seats.
    pub fn new(alloc: Global) -> Result<Chunk, NoMemory>
        ensures { IfOk result (λ c. c ≡ []) }
    {
        let seats = Vec::with_capacity(alloc, MOST)?;
        Ok(Chunk { seats })
    }

    /// The seats.
    pub fn as_slice(&self) -> &[Seat]
        ensures { result.now ≡ self.now }
    {
        self.seats.as_slice()
    }

    /// How many seats there are.
    pub fn len(&self) -> usize
        ensures { result ≡ length self.now }
    {
        self.seats.len()
    }

    /// Whether there is no room for one more.
    pub fn is_full(&self) -> bool
        ensures full { IsTrue result ↔ (length self.now ≡ 32) }
        ensures most { length self.now ≤ 32 }
    {
        self.seats.len() == MOST
    }

    /// Has this seat alone. Takes no memory.
    pub fn begin(&mut self, seat: Seat)
        ensures { self.new ≡ seat ∷ [] }
    {
        self.seats.clear();
        self.seats.push_reserved(seat);
    }

    /// Puts a seat at a place. Takes no memory.
    pub fn put(&mut self, at: usize, seat: Seat)
        requires within { at ≤ length self.old }
        requires room { length self.old < 32 }
        ensures { self.new ≡ insert self.old at seat }
    {
        match self.seats.insert(at, seat) {
            Ok(()) => {}
            Err(_) => unreachable!(),
        }
    }

    /// Moves the upper half of a full chunk into another, whose own seats are let go. Takes no
    /// memory.
    fn halve(&mut self, upper: &mut Chunk)
        requires { length self.old ≡ 32 }
        ensures seats { self.new ++ upper.new ≡ self.old }
        ensures lower { length self.new ≡ 16 }
        ensures upper { length upper.new ≡ 16 }
    {
        upper.seats.clear();
        pour(&mut self.seats, &mut upper.seats);
        upper.seats.reverse();
    }

    /// Puts a seat at a place of a full chunk, whose upper half moves into another. What that one
    /// had is let go. Takes no memory.
    pub fn put_halved(&mut self, upper: &mut Chunk, at: usize, seat: Seat)
        requires full { length self.old ≡ 32 }
        requires within { at ≤ 32 }
        ensures seats { self.new ++ upper.new ≡ insert self.old at seat }
        ensures lower { 0 < length self.new }
        ensures upper { 0 < length upper.new }
    {
        self.halve(upper);
        if at <= HALF {
            self.put(at, seat);
        } else {
            upper.put(at - HALF, seat);
        }
    }
}
