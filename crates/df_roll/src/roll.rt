//! Where each unit's row stands. Units come to exist in any order, and are found by their own.

ghost use Rattle.std.specs.Prelude.{◌≡◌, ◌+◌, ◌<◌, ◌≤◌, [], None, Some, OnOk, if◌then◌else◌, is_none, option_copied, slice_get};
ghost use Rattle.std.specs.Option.{option_or};
ghost use Rattle.df_label.specs.Ascending.{IsAscending};
ghost use Rattle.df_unit.specs.Name.{same};
ghost use Rattle.df_unit.specs.UnitOrder.{unit_cmp};
ghost use Rattle.df_unit.specs.declared.name.UnitName.{UnitName};
ghost use Rattle.df_roll.specs.Roll.{names_in, seat_of};

use crate::chunk::Chunk;
use crate::chunks::{begin, gap_at, place_of, put, stock, unit_at};
use crate::seat::Seat;
use df_memory::NoMemory;
use df_unit::UnitName;
use std::alloc::Global;
use std::marker::Model;

/// The places of units' rows, in the order of units, in chunks, so that one more moves few others.
#[derive(Drop)]
pub struct Roll {
    chunks: Vec<Chunk>,
    spare: Vec<Chunk>,
    alloc: Global,
}

impl Model for Roll {
    ghost use Rattle.std.specs.Prelude.{ℕ, List, ◌-◌, min, refl, vec_capacity, vec_len};
    ghost use Rattle.std.specs.Coded.{code_by, coded×, coded_list, coded_ℕ};
    ghost use Rattle.df_roll.specs.Chunks.{AreOrdered, joined};
    ghost use Rattle.df_roll.specs.Roll.{RollState};
    ghost use Rattle.df_roll.specs.contracts.seat.Seat as seat;
    ghost use Rattle.df_roll.specs.declared.seat.Seat.{Seat};

    ghost Value = { RollState };

    ghost coded = { code_by (List Seat × ℕ) (coded× (coded_list seat.the_row.coded) coded_ℕ)
        (λ r. (r.seats, r.room)) (λ p. record { seats = p.0; room = p.1 }) (λ _. refl) };

    ghost view = { λ r. record {
      seats = joined r.chunks.items;
      room = min (vec_len r.spare) (vec_capacity r.chunks - vec_len r.chunks);
    } };

    ghost invariant = { λ r. AreOrdered r.chunks.items };
}

impl Roll {
    /// No unit has a place yet.
    pub fn new(alloc: Global) -> Roll
        ensures { result.seats ≡ [] }
    {
        Roll {
            chunks: Vec::new(alloc),
            spare: Vec::new(alloc),
            alloc,
        }
    }

    /// The place of a unit's row.
    pub fn place(&self, name: &UnitName) -> Option<usize>
        ensures { result ≡ seat_of name.now self.now.seats }
    {
        place_of(self.chunks.as_slice(), name)
    }

    /// The unit at a place in the order of units.
    pub fn unit_at(&self, k: usize) -> Option<&UnitName>
        ensures unit { option_copied result ≡ slice_get (names_in self.now.seats) k }
        ensures ascending { IsAscending unit_cmp (names_in self.now.seats) }
    {
        unit_at(self.chunks.as_slice(), k)
    }

    /// Makes room for so many more seats.
    pub fn reserve(&mut self, n: usize) -> Result<(), NoMemory>
        ensures room { OnOk result (n ≤ self.new.room) }
        ensures same { self.new.seats ≡ self.old.seats }
    {
        self.chunks.reserve(n)?;
        stock(self.alloc, &mut self.spare, n)
    }

    /// Gives a unit's row a place, unless it has one, and answers whether it had none. There is
    /// room for a seat. Takes no memory.
    pub fn seat(&mut self, unit: UnitName, place: usize) -> bool
        requires room { 0 < self.old.room }
        ensures told { result ≡ is_none (seat_of unit self.old.seats) }
        ensures seated { (n : UnitName) → seat_of n self.new.seats
            ≡ option_or (seat_of n self.old.seats) (if same unit n then Some place else None) }
        ensures room { self.old.room ≤ self.new.room + 1 }
    {
        if self.chunks.is_empty() {
            begin(&mut self.chunks, &mut self.spare, Seat { unit, place });
            return true;
        }
        let Some(spot) = gap_at(self.chunks.as_slice(), &unit) else {
            return false;
        };
        put(
            &mut self.chunks,
            &mut self.spare,
            spot,
            Seat { unit, place },
        );
        true
    }
}
