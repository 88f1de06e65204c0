ghost use Rattle.std.specs.Prelude.{◌≡◌, ◌+◌, ◌-◌, ◌<◌, ◌≤◌, ◌↔◌, ◌++◌, ◌∷◌, [], length, min, Some, OnOk, OnErr, IfOk, IsErr};
ghost use Rattle.df_io.specs.Faults.{Counts, CountsEach, count_more};
ghost use Rattle.df_io.specs.Pieces.{Takes, Appends};
ghost use Rattle.df_io.specs.MemorySink.{FailsWrite};

use crate::{Sink, SinkFailed};
use df_memory::NoMemory;
use std::alloc::Global;
use std::marker::Model;

/// A sink that keeps the bytes, in room that it takes when it is made, of which chosen writes
/// fail. A write that finds no room is a fault.
#[derive(Debug, Drop)]
pub struct MemorySink {
    bytes: Vec<u8>,
    failing: Vec<u64>,
    room: usize,
    most: usize,
    calls: u64,
    faults: u64,
}

impl Model for MemorySink {
    ghost use Rattle.std.specs.Prelude.{◌+◌, ◌<◌, ◌≤◌, vec_len, vec_capacity};
    ghost use Rattle.df_io.specs.MemorySink.{SinkState};

    ghost Value = { SinkState };

    ghost view = { λ s. record {
      bytes = s.bytes.items;
      failing = s.failing.items;
      room = s.room;
      most = s.most;
      calls = s.calls;
      faults = s.faults;
    } };

    ghost invariant = { λ s. (0 < s.most) × (vec_len s.bytes + s.room ≤ vec_capacity s.bytes) };
}

impl MemorySink {
    /// A sink with room for so many bytes, that takes at most `most` of them in one call.
    pub fn new(alloc: Global, room: usize, most: usize) -> Result<MemorySink, NoMemory>
        requires { 0 < most }
        ensures { IfOk result (λ s. s ≡ record {
          bytes = [];
          failing = [];
          room = room;
          most = most;
          calls = 0;
          faults = 0;
        }) }
    {
        Ok(MemorySink {
            bytes: Vec::with_capacity(alloc, room)?,
            failing: Vec::new(alloc),
            room,
            most,
            calls: 0,
            faults: 0,
        })
    }

    /// Lets a write fail. The first write is call 1.
    pub fn fail(&mut self, call: u64) -> Result<(), NoMemory>
        ensures fails { OnOk result (self.new
            ≡ record self.old { failing = self.old.failing ++ call ∷ [] }) }
        ensures unchanged { OnErr result (self.new ≡ self.old) }
    {
        self.failing.push(call)?;
        Ok(())
    }

    /// All that was written.
    pub fn bytes(&self) -> &[u8]
        ensures { result.now ≡ self.now.bytes }
    {
        self.bytes.as_slice()
    }
}

impl Sink for MemorySink {
    ghost faults = { λ s. s.faults };

    ghost written = { λ s. Some s.bytes };

    fn write_piece(&mut self, piece: &[u8]) -> Result<usize, SinkFailed>
        ensures takes { Takes piece.now result }
        ensures appends { Appends (Some self.old.bytes) (Some self.new.bytes) piece.now result }
        ensures cause { Counts self.old.faults self.new.faults result }
        ensures faults { CountsEach self.old.faults self.new.faults result }
        ensures fails { IsErr result ↔ FailsWrite self.old piece.now }
        ensures all { IfOk result (λ n. n ≡ min (length piece.now)
            (min self.old.most self.old.room)) }
        ensures counted { self.new.calls ≡ count_more self.old.calls }
    {
        self.calls = self.calls.saturating_add(1);
        let count = piece.len().min(self.most.min(self.room));
        if self.failing.contains(&self.calls) || (self.room == 0 && !piece.is_empty()) {
            self.faults = self.faults.saturating_add(1);
            return Err(SinkFailed);
        }
        match self.bytes.extend_from_slice(&piece[..count]) {
            Ok(()) => {
                self.room -= count;
                Ok(count)
            }
            Err(_) => unreachable!(),
        }
    }
}
