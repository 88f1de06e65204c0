ghost use Rattle.std.specs.Prelude.{◌≡◌, ◌≤◌, length, IfOk, Ok};
ghost use Rattle.df_io.specs.Faults.{Counts};

use crate::{Disk, DiskFailed};
use std::fs::{Files, OpenFile, OpenOptions};
use std::io;
use std::io::{ErrorKind, Read, Seek, SeekFrom, Write};

/// A real file, which tells no bytes. One that can't be opened or made fails each call.
#[derive(Drop)]
pub struct FileDisk<F: Read + Write + Seek + OpenFile + Drop> {
    file: Option<F>,
    faults: u64,
}

/// Opens the file, and makes it where it is missing. Its name in its folder is synced too.
fn open<R: Files>(rt: &R, name: &str) -> io::Result<R::File> {
    let file = OpenOptions::new()
        .read(true)
        .write(true)
        .create(true)
        .open(rt, name)?;
    let folder = match name.rsplit_once('/') {
        Some(("", _)) => "/",
        Some((folder, _)) => folder,
        None => ".",
    };
    OpenOptions::new().read(true).open(rt, folder)?.sync_all()?;
    Ok(file)
}

/// Makes a disk of the file with this name.
pub fn file_disk<R: Files>(rt: &R, name: &str) -> FileDisk<R::File> {
    FileDisk {
        file: open(rt, name).ok(),
        faults: 0,
    }
}

fn size_of(file: &impl OpenFile) -> io::Result<u64> {
    Ok(file.metadata()?.len())
}

fn read_from<F: Read + Seek>(file: &mut F, at: u64, into: &mut [u8]) -> io::Result<usize>
    ensures { IfOk result (λ n. n ≤ length into.new) }
{
    file.seek(SeekFrom::Start(at))?;
    file.read(into)
}

fn write_to<F: Write + Seek>(file: &mut F, at: u64, piece: &[u8]) -> io::Result<()> {
    file.seek(SeekFrom::Start(at))?;
    file.write_all(piece)
}

/// Counts a fault.
fn told<T: Drop>(done: io::Result<T>, faults: &mut u64) -> Result<T, DiskFailed>
    ensures cause { Counts faults.old faults.new result }
    ensures value { IfOk result (λ value. done ≡ Ok value) }
{
    match done {
        Ok(value) => Ok(value),
        Err(_) => {
            *faults = faults.saturating_add(1);
            Err(DiskFailed)
        }
    }
}

impl<F: Read + Write + Seek + OpenFile + Drop> Disk for FileDisk<F> {
    ghost use Rattle.std.specs.Prelude.{None};

    ghost bytes = { λ _. None };

    ghost may_leave = { λ _ _. Unit };

    ghost moment = { λ _. 0 };

    ghost left_since = { λ _ _ _. Unit };

    ghost faults = { λ d. d.faults };

    ghost may_stay = { λ _. tt };

    ghost counts_now = { λ _ _ _ _ now. now };

    ghost only_now = { λ _ _ left. left };

    fn size(&mut self) -> Result<u64, DiskFailed> {
        let done = match &self.file {
            Some(file) => size_of(file),
            None => Err(ErrorKind::NotFound.into()),
        };
        told(done, &mut self.faults)
    }

    fn read_at(&mut self, at: u64, into: &mut [u8]) -> Result<usize, DiskFailed> {
        let done = match &mut self.file {
            Some(file) => read_from(file, at, into),
            None => Err(ErrorKind::NotFound.into()),
        };
        told(done, &mut self.faults)
    }

    fn write_at(&mut self, at: u64, piece: &[u8]) -> Result<(), DiskFailed> {
        let done = match &mut self.file {
            Some(file) => write_to(file, at, piece),
            None => Err(ErrorKind::NotFound.into()),
        };
        told(done, &mut self.faults)
    }

    fn sync(&mut self) -> Result<(), DiskFailed> {
        let done = match &self.file {
            Some(file) => file.sync_all(),
            None => Err(ErrorKind::NotFound.into()),
        };
        told(done, &mut self.faults)
    }
}
