ghost use Rattle.std.specs.Prelude.{◌≡◌, ◌≤◌, length, IfOk, None};
ghost use Rattle.df_io.specs.Faults.{Counts, CountsEach};
ghost use Rattle.df_io.specs.Pieces.{Appends, Reads, Takes};

use crate::{Shelf, ShelfFailed, Sink, SinkFailed};
use std::alloc::Global;
use std::io::{Read, Seek, SeekFrom, Write};
use std::rt::Files;
use std::{fs, io};

/// A file that is open for reading, and the place behind what was read of it.
#[derive(Drop)]
struct OpenFile<F: Drop> {
    name: String,
    place: u64,
    file: F,
}

impl<F: Drop> OpenFile<F> {
    fn is_at(&self, name: &str, place: u64) -> bool {
        self.name.as_str() == name && self.place == place
    }
}

/// The real files, which tell no bytes.
///
/// The file that was read last stays open, so one that is read piece by piece is opened once, and
/// never sought in. So it may be a pipe, too.
#[derive(Drop)]
pub struct FileShelf<R: Files + Drop> {
    alloc: Global,
    rt: R,
    open: Option<OpenFile<R::File>>,
    faults: u64,
}

impl<R: Files + Drop> FileShelf<R> {
    pub fn new(alloc: Global, rt: R) -> FileShelf<R> {
        FileShelf {
            alloc,
            rt,
            open: None,
            faults: 0,
        }
    }

    /// Reads from this place of a file on: of the open one where the last read ended there, else of
    /// one that is opened anew. At its end the file is closed.
    fn read_on(&mut self, name: &str, place: u64, into: &mut [u8]) -> io::Result<usize>
        ensures within { IfOk result (λ n. n ≤ length into.new) }
        ensures faults { self.new.faults ≡ self.old.faults }
    {
        let mut open = match self.open.take() {
            Some(open) if place > 0 && open.is_at(name, place) => open,
            _ => open_at(self.alloc, &self.rt, name, place)?,
        };
        let count = open.file.read(into)?;
        if count > 0 {
            open.place = place.saturating_add(count as u64);
            self.open = Some(open);
        }
        Ok(count)
    }
}

/// Opens a file, to be read from this place on.
fn open_at<R: Files>(
    alloc: Global,
    rt: &R,
    name: &str,
    place: u64,
) -> io::Result<OpenFile<R::File>> {
    let name_kept = String::from_str(alloc, name)?;
    let mut file = fs::open(rt, name)?;
    if place > 0 {
        file.seek(SeekFrom::Start(place))?;
    }
    Ok(OpenFile {
        name: name_kept,
        place,
        file,
    })
}

impl<R: Files + Drop> Shelf for FileShelf<R> {
    ghost faults = { λ s. s.faults };

    ghost bytes = { λ _ _. None };

    /// The count rises exactly where a read is refused.
    fn read_piece(&mut self, name: &str, at: u64, into: &mut [u8]) -> Result<usize, ShelfFailed>
        ensures within { IfOk result (λ n. n ≤ length into.new) }
        ensures read { Reads None at into.old into.new result }
        ensures cause { Counts self.old.faults self.new.faults result }
        ensures faults { CountsEach self.old.faults self.new.faults result }
    {
        match self.read_on(name, at, into) {
            Ok(count) => Ok(count),
            Err(_) => {
                self.faults = self.faults.saturating_add(1);
                Err(ShelfFailed)
            }
        }
    }
}

/// The real output, which tells no bytes.
#[derive(Drop)]
pub struct OutSink<W: Write + Drop> {
    pub(crate) to: W,
    faults: u64,
}

impl<W: Write + Drop> OutSink<W> {
    pub fn new(to: W) -> OutSink<W> {
        OutSink { to, faults: 0 }
    }
}

impl<W: Write + Drop> Sink for OutSink<W> {
    ghost faults = { λ s. s.faults };

    ghost written = { λ _. None };

    /// The count rises exactly where a write is refused.
    fn write_piece(&mut self, piece: &[u8]) -> Result<usize, SinkFailed>
        ensures takes { Takes piece.now result }
        ensures appends { Appends None None piece.now result }
        ensures cause { Counts self.old.faults self.new.faults result }
        ensures faults { CountsEach self.old.faults self.new.faults result }
    {
        match self.to.write(piece) {
            Ok(count) if count > 0 || piece.is_empty() => Ok(count),
            _ => {
                self.faults = self.faults.saturating_add(1);
                Err(SinkFailed)
            }
        }
    }
}
