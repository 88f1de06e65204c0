ghost use Rattle.std.specs.Prelude.{◌≡◌, ℕ, ◌-◌, ◌≤◌, List, length, [], min, unwrap_or, OnOk, OnErr, IfOk, Ok};
ghost use Rattle.df_io.specs.Faults.{Counts};
ghost use Rattle.df_io.specs.Files.{bytes_of, PutsFile};
ghost use Rattle.df_io.specs.Pieces.{Reads, Takes, Appends};

use crate::memory_shelf::{Files, copy_piece};
use crate::{Shelf, ShelfFailed, Sink, SinkFailed};
use df_memory::NoMemory;
use std::alloc::Global;
use std::marker::Model;

/// Files in memory whose reads never fail. A name without a file is an empty file.
#[derive(Debug, Drop)]
pub struct SureShelf {
    files: Files,
}

impl Model for SureShelf {
    ghost use Rattle.std.specs.Prelude.{ℕ, List};

    ghost Value = { List (List ℕ × List ℕ) };

    ghost view = { λ s. s.files };
}

impl SureShelf {
    /// A shelf without files. Takes no memory.
    pub fn new(alloc: Global) -> SureShelf
        ensures { result ≡ [] }
    {
        SureShelf {
            files: Files::new(alloc),
        }
    }

    /// Adds a file, or replaces the one of this name.
    pub fn put(&mut self, name: &str, bytes: &[u8]) -> Result<(), NoMemory>
        ensures put { OnOk result (PutsFile name.now bytes.now self.old self.new) }
        ensures unchanged { OnErr result (self.new ≡ self.old) }
    {
        self.files.put(name, bytes)
    }
}

impl Shelf for SureShelf {
    ghost use Rattle.std.specs.Prelude.{Some, unwrap_or};

    ghost faults = { λ _. 0 };

    ghost bytes = { λ s n. Some (unwrap_or (bytes_of n s) []) };

    fn read_piece(&mut self, name: &str, at: u64, into: &mut [u8]) -> Result<usize, ShelfFailed>
        ensures within { IfOk result (λ n. n ≤ length into.new) }
        ensures read { Reads (Some (unwrap_or (bytes_of name.now self.old) [])) at into.old
            into.new result }
        ensures same { self.new ≡ self.old }
        ensures cause { Counts 0 0 result }
        ensures all { result
            ≡ Ok (min (length into.old) (length (unwrap_or (bytes_of name.now self.old) []) - at)) }
    {
        match self.files.bytes(name) {
            Some(bytes) => Ok(copy_piece(bytes, at, into)),
            None => Ok(copy_piece(&[], at, into)),
        }
    }
}

/// A sink that takes all and never fails. It keeps and tells no bytes.
#[derive(Clone, Copy, Debug)]
pub struct SureSink;

impl SureSink {
    pub fn new() -> SureSink {
        SureSink
    }
}

impl Sink for SureSink {
    ghost use Rattle.std.specs.Prelude.{None};

    ghost faults = { λ _. 0 };

    ghost written = { λ _. None };

    fn write_piece(&mut self, piece: &[u8]) -> Result<usize, SinkFailed>
        ensures takes { Takes piece.now result }
        ensures appends { Appends None None piece.now result }
        ensures cause { Counts 0 0 result }
        ensures all { result ≡ Ok (length piece.now) }
    {
        Ok(piece.len())
    }
}
