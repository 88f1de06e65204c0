//! Where a unit's deliveries arose.

ghost use Rattle.std.specs.Prelude.{◌≡◌, ◌+◌, ◌<◌, [], OnOk, slice_get};
ghost use Rattle.df_why.specs.code.Arising.{extended};

use df_memory::NoMemory;
use std::alloc::Global;
use std::marker::Model;

/// Of a unit, how many deliveries it took, and where each of its deliveries arose.
#[derive(Drop)]
pub(crate) struct Queue {
    taken: usize,
    places: Vec<usize>,
}

impl Model for Queue {
    ghost use Rattle.df_why.specs.code.Arising.{QueueState, queue_code};

    ghost Value = { QueueState };

    ghost coded = { queue_code };

    ghost view = { λ q. record { taken = q.taken; places = q.places.items } };
}

impl Queue {
    /// Nothing arose, and nothing was taken.
    pub(crate) fn new(alloc: Global) -> Queue
        ensures { result ≡ record { taken = 0; places = [] } }
    {
        Queue {
            taken: 0,
            places: Vec::new(alloc),
        }
    }

    /// Where the next delivery arose that the unit takes.
    pub(crate) fn next(&self) -> Option<usize>
        ensures { result ≡ slice_get self.now.places self.now.taken }
    {
        self.places.get(self.taken).copied()
    }

    /// Where the first delivery arose.
    pub(crate) fn first(&self) -> Option<usize>
        ensures { result ≡ slice_get self.now.places 0 }
    {
        self.places.first().copied()
    }

    /// Takes one, where it took fewer than `most`.
    pub(crate) fn take(&mut self, most: usize)
        requires { self.old.taken < most }
        ensures { self.new ≡ record self.old { taken = self.old.taken + 1 } }
    {
        prove!(self.taken < most);
        self.taken += 1;
    }

    /// So many are left. Those of which no place is kept arose there.
    pub(crate) fn extend(&mut self, left: usize, place: usize) -> Result<(), NoMemory>
        ensures { OnOk result (self.new ≡ extended self.old left place) }
    {
        let known = self.places.len().saturating_sub(self.taken);
        for _ in 0..left.saturating_sub(known) {
            self.places.push(place)?;
        }
        Ok(())
    }
}
