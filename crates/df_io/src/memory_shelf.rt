ghost use Rattle.std.specs.Prelude.{◌≡◌, ℕ, ◌+◌, ◌-◌, ◌<◌, ◌≤◌, ◌↔◌, ◌++◌, ◌∷◌, List, [], length, take, drop, min, Option, None, option_copied, unwrap_or, OnOk, OnErr, IfOk, IfSome, IsErr};
ghost use Rattle.std.specs.Str.{bytes_eq};
ghost use Rattle.std.specs.List.{find, position_from};
ghost use Rattle.df_io.specs.Faults.{Counts, CountsEach, count_more};
ghost use Rattle.df_io.specs.Files.{bytes_of, PutsFile};
ghost use Rattle.df_io.specs.Pieces.{Reads};
ghost use Rattle.df_io.specs.MemoryShelf.{FailsRead};

use crate::{Shelf, ShelfFailed};
use df_memory::NoMemory;
use std::alloc::Global;
use std::marker::Model;

/// A file in memory, which a contract sees as its name and its bytes.
#[derive(Debug, Drop)]
struct File {
    name: String,
    bytes: Vec<u8>,
}

impl Model for File {
    ghost use Rattle.std.specs.Prelude.{ℕ, List, string_bytes};

    ghost Value = { List ℕ × List ℕ };

    ghost view = { λ f. (string_bytes f.name, f.bytes.items) };
}

/// Files by name, of which the first of a name counts.
#[derive(Debug, Drop)]
pub(crate) struct Files {
    list: Vec<File>,
}

impl Model for Files {
    ghost use Rattle.std.specs.Prelude.{ℕ, List};

    ghost Value = { List (List ℕ × List ℕ) };

    ghost view = { λ f. f.list.items };
}

impl File {
    fn new(alloc: Global, name: &str, bytes: &[u8]) -> Result<File, NoMemory>
        ensures { IfOk result (λ f. f ≡ (name.now, bytes.now)) }
    {
        let name = String::from_str(alloc, name)?;
        let bytes = Vec::from_slice(alloc, bytes)?;
        Ok(File { name, bytes })
    }

    fn is_named(&self, name: &str) -> bool
        ensures { result ≡ bytes_eq self.now.0 name.now }
    {
        self.name.as_str() == name
    }

    fn bytes(&self) -> &[u8]
        ensures { result.now ≡ self.now.1 }
    {
        self.bytes.as_slice()
    }
}

impl Files {
    pub(crate) fn new(alloc: Global) -> Files
        ensures { result ≡ [] }
    {
        Files {
            list: Vec::new(alloc),
        }
    }

    pub(crate) fn bytes(&self, name: &str) -> Option<&[u8]>
        ensures { option_copied result ≡ bytes_of name.now self.now }
    {
        match find(self.list.as_slice(), name) {
            Some(file) => Some(file.bytes()),
            None => None,
        }
    }

    pub(crate) fn put(&mut self, name: &str, bytes: &[u8]) -> Result<(), NoMemory>
        ensures put { OnOk result (PutsFile name.now bytes.now self.old self.new) }
        ensures unchanged { OnErr result (self.new ≡ self.old) }
    {
        let file = File::new(*self.list.allocator(), name, bytes)?;
        match place(self.list.as_slice(), name) {
            Some(k) => self.list[k] = file,
            None => self.list.push(file)?,
        }
        Ok(())
    }
}

fn find<'a>(files: &'a [File], name: &str) -> Option<&'a File>
    ensures { option_copied result ≡ find (λ f. bytes_eq f.0 name.now) files.now }
{
    files.iter().find(|file| file.is_named(name))
}

fn place(files: &[File], name: &str) -> Option<usize>
    ensures place { result ≡ position_from (λ f. bytes_eq f.0 name.now) 0 files.now }
    ensures within { IfSome result (λ k. k < length files.now) }
{
    files.iter().position(|file| file.is_named(name))
}

/// Copies the bytes from a place on, as many as there are and the buffer has room for.
pub(crate) fn copy_piece(bytes: &[u8], at: u64, into: &mut [u8]) -> usize
    ensures within { result ≤ length into.new }
    ensures piece { take result into.new ≡ take result (drop at bytes.now) }
    ensures count { result ≡ min (length into.old) (length bytes.now - at) }
{
    let start = at as usize;
    if start >= bytes.len() {
        return 0;
    }
    let count = into.len().min(bytes.len() - start);
    into[..count].copy_from_slice(&bytes[start..start + count]);
    count
}

/// Files in memory, of which chosen reads fail. A missing file is a fault.
#[derive(Debug, Drop)]
pub struct MemoryShelf {
    files: Files,
    failing: Vec<u64>,
    calls: u64,
    faults: u64,
}

impl Model for MemoryShelf {
    ghost use Rattle.df_io.specs.MemoryShelf.{ShelfState};

    ghost Value = { ShelfState };

    ghost view = { λ s. record {
      files = s.files;
      failing = s.failing.items;
      calls = s.calls;
      faults = s.faults;
    } };
}

impl MemoryShelf {
    /// A shelf without files, of which no read fails. Takes no memory.
    pub fn new(alloc: Global) -> MemoryShelf
        ensures { result ≡ record { files = []; failing = []; calls = 0; faults = 0 } }
    {
        MemoryShelf {
            files: Files::new(alloc),
            failing: Vec::new(alloc),
            calls: 0,
            faults: 0,
        }
    }

    /// Adds a file, or replaces the one of this name.
    pub fn put(&mut self, name: &str, bytes: &[u8]) -> Result<(), NoMemory>
        ensures put { OnOk result (PutsFile name.now bytes.now self.old.files self.new.files) }
        ensures others { self.new ≡ record self.old { files = self.new.files } }
        ensures unchanged { OnErr result (self.new ≡ self.old) }
    {
        self.files.put(name, bytes)
    }

    /// Lets a read fail. The first read is call 1.
    pub fn fail(&mut self, call: u64) -> Result<(), NoMemory>
        ensures fails { OnOk result (self.new
            ≡ record self.old { failing = self.old.failing ++ call ∷ [] }) }
        ensures unchanged { OnErr result (self.new ≡ self.old) }
    {
        self.failing.push(call)?;
        Ok(())
    }
}

impl Shelf for MemoryShelf {
    ghost faults = { λ s. s.faults };

    ghost bytes = { λ s n. bytes_of n s.files };

    fn read_piece(&mut self, name: &str, at: u64, into: &mut [u8]) -> Result<usize, ShelfFailed>
        ensures within { IfOk result (λ n. n ≤ length into.new) }
        ensures read { Reads (bytes_of name.now self.old.files) at into.old into.new result }
        ensures same { self.new.files ≡ self.old.files }
        ensures cause { Counts self.old.faults self.new.faults result }
        ensures faults { CountsEach self.old.faults self.new.faults result }
        ensures fails { IsErr result ↔ FailsRead self.old name.now }
        ensures all { IfOk result (λ n. n ≡ min (length into.old)
            (length (unwrap_or (bytes_of name.now self.old.files) []) - at)) }
        ensures counted { self.new.calls ≡ count_more self.old.calls }
    {
        self.calls = self.calls.saturating_add(1);
        if !self.failing.contains(&self.calls) {
            if let Some(bytes) = self.files.bytes(name) {
                return Ok(copy_piece(bytes, at, into));
            }
        }
        self.faults = self.faults.saturating_add(1);
        Err(ShelfFailed)
    }
}
