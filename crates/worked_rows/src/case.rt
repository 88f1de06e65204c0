//! One run of a row by the top call, and what came out.

use crate::runs::{Run, most_of};
use crate::stop::Stop;
use crate::table::{Fault, Line, Share, Source, texts_of};
use crate::tell::tell;
use crate::text::{Text, append_body, append_line};
use df_io::{FileShelf, MemoryShelf, MemorySink, read_file};
use df_run::{Left, run_main};
use df_workers::OpenGate;
use std::alloc::Global;
use std::sync::Wait;
use std::thread::Threads;

/// One run of a row of a table.
#[derive(Clone, Copy, Debug)]
pub struct Case<'a> {
    pub table: &'a str,
    pub name: &'a str,
    pub row: &'a [Line<'a>],
    pub run: Run<'a>,
}

/// The bytes of a file beside the tables.
pub fn data_of(rt: HostRuntime, path: &str) -> Result<Vec<u8>, Stop> {
    match read_file(rt.alloc(), &mut FileShelf::new(rt.alloc(), rt), path) {
        Ok(bytes) => Ok(bytes),
        Err(_) => {
            eprintln!(rt; "{path}: can't be read")?;
            Err(Stop::NoFile)
        }
    }
}

/// Appends what the text lines say.
fn append_texts(texts: &[Line<'_>], fill: Option<&[u8]>, out: &mut Vec<u8>) -> Result<(), Stop> {
    for line in texts {
        if let Line::Text(text) = line {
            append_line(*text, fill, out)?;
        }
    }
    Ok(())
}

/// The bytes of these text lines, so many times.
fn texts_bytes(
    alloc: Global,
    texts: &[Line<'_>],
    times: usize,
    fill: Option<&[u8]>,
) -> Result<Vec<u8>, Stop> {
    let mut once = Vec::new(alloc);
    append_texts(texts, fill, &mut once)?;
    if times == 1 {
        return Ok(once);
    }
    let mut bytes = Vec::new(alloc);
    for _ in 0..times {
        bytes.extend_from_slice(once.as_slice())?;
    }
    Ok(bytes)
}

/// The bytes of the file of this path, with its holes filled.
fn path_bytes(rt: HostRuntime, path: &str, fill: Option<&[u8]>) -> Result<Vec<u8>, Stop> {
    let bytes = filled(rt.alloc(), path, fill)?;
    match str::from_utf8(bytes.as_slice()) {
        Ok(told) => data_of(rt, told),
        Err(_) => Err(Stop::Word),
    }
}

/// How many bytes a run may write that makes a file or the output of another.
const RUN_ROOM: usize = 8_388_608;

/// What the run of these words writes, over this shelf.
fn run_bytes<R: Threads + Wait + Sync>(
    rt: HostRuntime,
    threads: &R,
    line: &str,
    fill: Option<&[u8]>,
    shelf: &mut MemoryShelf,
) -> Result<Vec<u8>, Stop> {
    let alloc = rt.alloc();
    let mut words = Vec::new(alloc);
    append_line_words(&mut words, &Line::Words(line), fill)?;
    let mut sink = MemorySink::new(alloc, RUN_ROOM, usize::MAX)?;
    run_main(
        threads,
        alloc,
        words.as_slice(),
        shelf,
        &mut sink,
        &OpenGate,
        &mut Left::nothing(),
    );
    let mut bytes = Vec::new(alloc);
    bytes.extend_from_slice(sink.bytes())?;
    Ok(bytes)
}

/// The bytes of this source, where these lines follow, and the files before it are on the shelf.
fn source_bytes<R: Threads + Wait + Sync>(
    rt: HostRuntime,
    threads: &R,
    source: Source<'_>,
    behind: &[Line<'_>],
    fill: Option<&[u8]>,
    shelf: &mut MemoryShelf,
) -> Result<Vec<u8>, Stop> {
    match source {
        Source::Path(path) => path_bytes(rt, path, fill),
        Source::Run(words) => run_bytes(rt, threads, words, fill, shelf),
        Source::Lines(times) => texts_bytes(rt.alloc(), texts_of(behind), times, fill),
    }
}

/// What fills the holes of the run.
fn fill_of(alloc: Global, fill: Option<Text<'_>>) -> Result<Option<Vec<u8>>, Stop> {
    let Some(text) = fill else {
        return Ok(None);
    };
    let mut bytes = Vec::new(alloc);
    append_body(text, None, &mut bytes)?;
    Ok(Some(bytes))
}

/// Appends a word.
fn append_word(words: &mut Vec<String>, word: &str) -> Result<(), Stop> {
    let word = String::from_str(*words.allocator(), word)?;
    Ok(words.push(word)?)
}

/// Appends the words that stand apart by one space.
fn append_words(words: &mut Vec<String>, line: &str) -> Result<(), Stop> {
    for word in line.split(" ") {
        append_word(words, word)?;
    }
    Ok(())
}

/// The text with its holes filled.
fn filled(alloc: Global, text: &str, fill: Option<&[u8]>) -> Result<Vec<u8>, Stop> {
    let mut bytes = Vec::new(alloc);
    append_body(Text::Plain(text), fill, &mut bytes)?;
    Ok(bytes)
}

/// Appends the words of a line.
fn append_line_words(
    words: &mut Vec<String>,
    line: &Line<'_>,
    fill: Option<&[u8]>,
) -> Result<(), Stop> {
    let (Line::Words(text) | Line::Word(text)) = line else {
        return Ok(());
    };
    let bytes = filled(*words.allocator(), text, fill)?;
    let Ok(told) = str::from_utf8(bytes.as_slice()) else {
        return Err(Stop::Word);
    };
    match line {
        Line::Words("") => Ok(()),
        Line::Words(_) => append_words(words, told),
        _ => append_word(words, told),
    }
}

/// The words of the run.
fn words_of(alloc: Global, row: &[Line<'_>], fill: Option<&[u8]>) -> Result<Vec<String>, Stop> {
    let mut words = Vec::new(alloc);
    for line in row {
        append_line_words(&mut words, line, fill)?;
    }
    Ok(words)
}

/// The lines behind this place.
fn behind<'a>(row: &'a [Line<'a>], place: usize) -> &'a [Line<'a>] {
    row.get(place.saturating_add(1)..).unwrap_or(&[])
}

/// The text up to a length, or all of it.
fn front(text: &[u8], length: Option<usize>) -> &[u8] {
    match length {
        Some(length) => text.get(..length).unwrap_or(text),
        None => text,
    }
}

/// Puts the files of the run on the shelf.
fn put_files<R: Threads + Wait + Sync>(
    rt: HostRuntime,
    threads: &R,
    case: Case<'_>,
    fill: Option<&[u8]>,
    shelf: &mut MemoryShelf,
) -> Result<(), Stop> {
    for (place, line) in case.row.iter().enumerate() {
        if let Line::File(name, source) = line {
            let bytes = source_bytes(rt, threads, *source, behind(case.row, place), fill, shelf)?;
            shelf.put(name, front(bytes.as_slice(), case.run.front))?;
        }
    }
    Ok(())
}

/// What the row tells of what is written, and how much of it that is, where nothing fails.
fn output_of<R: Threads + Wait + Sync>(
    rt: HostRuntime,
    threads: &R,
    case: Case<'_>,
    fill: Option<&[u8]>,
    shelf: &mut MemoryShelf,
) -> Result<(Share, Vec<u8>), Stop> {
    for (place, line) in case.row.iter().enumerate() {
        if let Line::Output(share, source) = line {
            let bytes = source_bytes(rt, threads, *source, behind(case.row, place), fill, shelf)?;
            return Ok((*share, bytes));
        }
    }
    Ok((Share::Whole, Vec::new(rt.alloc())))
}

/// This share of a text, as long as so many bytes.
fn share_of(text: &[u8], share: Share, length: usize) -> &[u8] {
    match share {
        Share::Whole => text,
        Share::Beginning => front(text, Some(length)),
        Share::End => text
            .get(text.len().saturating_sub(length)..)
            .unwrap_or(text),
    }
}

/// How many bytes may be written beyond what is wanted, so that a text that is too long is told as
/// one.
const ROOM: usize = 65_536;

/// How many bytes may be written of which this many are told.
fn room_of(share: Share, told: usize) -> usize {
    match share {
        Share::Whole => told.saturating_add(ROOM),
        Share::Beginning | Share::End => told.saturating_add(RUN_ROOM),
    }
}

/// Whether the run on this shelf comes out as told, with this output.
fn is_told_on<R: Threads + Wait + Sync>(
    rt: HostRuntime,
    threads: &R,
    case: Case<'_>,
    words: &[String],
    shelf: &mut MemoryShelf,
    share: Share,
    output: &[u8],
) -> Result<bool, Stop> {
    let alloc = rt.alloc();
    let mut sink = MemorySink::new(alloc, room_of(share, output.len()), most_of(case.row))?;
    match case.run.fault {
        Some(Fault::Read(call)) => shelf.fail(call)?,
        Some(Fault::Write(call)) => sink.fail(call)?,
        None => {}
    }
    let mut left = Left::nothing();
    let status = run_main(
        threads, alloc, words, shelf, &mut sink, &OpenGate, &mut left,
    );
    tell(
        rt,
        case,
        status,
        front(output, case.run.written),
        share_of(sink.bytes(), share, output.len()),
    )
}

/// Whether the run with these words comes out as told.
fn is_told_by<R: Threads + Wait + Sync>(
    rt: HostRuntime,
    threads: &R,
    case: Case<'_>,
    fill: Option<&[u8]>,
    words: &[String],
) -> Result<bool, Stop> {
    let mut shelf = MemoryShelf::new(rt.alloc());
    put_files(rt, threads, case, fill, &mut shelf)?;
    let (share, output) = output_of(rt, threads, case, fill, &mut shelf)?;
    is_told_on(
        rt,
        threads,
        case,
        words,
        &mut shelf,
        share,
        output.as_slice(),
    )
}

/// Whether the run with its holes so filled comes out as told.
fn is_told_filled<R: Threads + Wait + Sync>(
    rt: HostRuntime,
    threads: &R,
    case: Case<'_>,
    fill: Option<&[u8]>,
) -> Result<bool, Stop> {
    let words = words_of(rt.alloc(), case.row, fill)?;
    is_told_by(rt, threads, case, fill, words.as_slice())
}

/// Whether the run comes out as told. What comes out otherwise is printed.
pub fn is_told<R: Threads + Wait + Sync>(
    rt: HostRuntime,
    threads: &R,
    case: Case<'_>,
) -> Result<bool, Stop> {
    match fill_of(rt.alloc(), case.run.fill)? {
        Some(bytes) => is_told_filled(rt, threads, case, Some(bytes.as_slice())),
        None => is_told_filled(rt, threads, case, None),
    }
}
