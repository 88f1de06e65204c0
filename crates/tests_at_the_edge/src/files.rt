//! Files over the real shelf, texts over real outputs, and the shelf and the sink that never fail.

use df_io::{
    FileShelf, NotRead, OutSink, Shelf, Sink, SinkFailed, SureShelf, SureSink, read_file, write_all,
};
use df_memory::NoMemory;
use std::alloc::Global;
use std::io::Write;
use std::test::Fail;
use std::{fs, io};

/// How many bytes a file is read by.
const PIECE: usize = 4_000;

/// Bytes of which no two pieces are alike.
fn text(alloc: Global, len: usize) -> Result<Vec<u8>, NoMemory> {
    let mut bytes = Vec::with_capacity(alloc, len)?;
    for place in 0..len {
        bytes.push((place % 251) as u8)?;
    }
    Ok(bytes)
}

fn is_read(alloc: Global, shelf: &mut impl Shelf, name: &str, bytes: &[u8]) -> bool {
    match read_file(alloc, shelf, name) {
        Ok(read) => read.as_slice() == bytes,
        Err(_) => false,
    }
}

fn sure_reads(alloc: Global, len: usize) -> Result<bool, NoMemory> {
    let bytes = text(alloc, len)?;
    let mut shelf = SureShelf::new(alloc);
    shelf.put("a", &bytes)?;
    Ok(is_read(alloc, &mut shelf, "a", &bytes) && is_read(alloc, &mut shelf, "b", &[]))
}

#[test]
fn sure_reads_and_writes_never_fail(rt: HostRuntime) -> Result<(), Fail> {
    for len in [0, 1, PIECE, PIECE + 1] {
        assert!(rt; sure_reads(rt.alloc(), len)?, "{len}");
    }
    assert_eq!(rt; write_all(&mut SureSink::new(), b"a line\n"), Ok(()));
    Ok(())
}

/// Whether a real file of so many bytes is written and read.
fn real_reads(rt: HostRuntime, name: &str, len: usize) -> Result<bool, Fail> {
    let bytes = text(rt.alloc(), len)?;
    let mut file = OutSink::new(fs::create(&rt, name)?);
    if write_all(&mut file, &bytes).is_err() {
        return Ok(false);
    }
    Ok(is_read(
        rt.alloc(),
        &mut FileShelf::new(rt.alloc(), rt),
        name,
        &bytes,
    ))
}

/// How many bytes of a file stand at a place, where they are those of this text; of eight at most.
fn piece_at(rt: HostRuntime, name: &str, bytes: &[u8], at: usize) -> Option<usize> {
    let mut piece = [0u8; 8];
    let count = FileShelf::new(rt.alloc(), rt)
        .read_piece(name, at as u64, &mut piece)
        .ok()?;
    if bytes.get(at..)?.starts_with(piece.get(..count)?) {
        return Some(count);
    }
    None
}

#[test]
fn real_files_are_read(rt: HostRuntime) -> Result<(), Fail> {
    let name = "tests_at_the_edge_file";
    for len in [0, 1, PIECE, PIECE + 1] {
        assert!(rt; real_reads(rt, name, len)?, "{len}");
    }
    let bytes = text(rt.alloc(), PIECE + 1)?;
    for (at, count) in [(0, 8), (1, 8), (PIECE, 1), (PIECE + 1, 0)] {
        assert_eq!(rt; piece_at(rt, name, &bytes, at), Some(count), "{at}");
    }
    fs::remove_file(&rt, name)?;
    let read = read_file(rt.alloc(), &mut FileShelf::new(rt.alloc(), rt), name);
    assert_eq!(rt; read.err(), Some(NotRead::Fault));
    Ok(())
}

#[test]
fn the_real_output_takes_or_fails(rt: HostRuntime) -> Result<(), Fail> {
    let mut out = OutSink::new(rt.stdout());
    assert_eq!(rt; write_all(&mut out, b"a line\n"), Ok(()));
    for (name, result) in [("/dev/null", Ok(())), ("/dev/full", Err(SinkFailed))] {
        let mut device = OutSink::new(fs::create(&rt, name)?);
        assert_eq!(rt; write_all(&mut device, b"a line\n"), result, "{name}");
    }
    Ok(())
}

/// A writer that takes three bytes in a call.
#[derive(Drop)]
struct ThreeByThree {
    taken: usize,
}

impl Write for ThreeByThree {
    fn write(&mut self, buf: &[u8]) -> io::Result<usize> {
        let count = buf.len().min(3);
        self.taken = self.taken.saturating_add(count);
        Ok(count)
    }

    fn flush(&mut self) -> io::Result<()> {
        Ok(())
    }
}

#[test]
fn a_short_write_is_told_as_short(rt: HostRuntime) {
    let mut sink = OutSink::new(ThreeByThree { taken: 0 });
    assert_eq!(rt; sink.write_piece(b"a long line\n"), Ok(3));
    assert_eq!(rt; write_all(&mut sink, b"ong line\n"), Ok(()));
}
