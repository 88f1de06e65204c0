//! A journal of each version by its own reader, and its entries by their own writer.

use df_journal_file::{read_journal, read_noted};
use df_journal_text::{write_entry, write_event, write_start, write_unit};
use df_memory::NoMemory;
use df_start::Start;
use df_unit::Entry;
use std::alloc::Global;
use std::test::Fail;

const FIRST: &[u8] = b"defcon-journal 1
unit 0 {|} #0+auth
run
1 get -> no unit
emitted 0!7
- {|} b
+ {#0|} a -5 #0+auth
";

/// The parts of the first version: its start, and behind each name the entry.
const WRITTEN: &[u8] = b"unit 0 {|} #0+auth
1
1 get -> no unit
0!7
emitted 0!7
- {|} b
+ {#0|} a -5 #0+auth
";

const SECOND: &[u8] = b"defcon-journal 2
unit 0 {|}
run
0 get -> nothing
@ {|}
";

/// How many entries the second version has.
fn second_count(alloc: Global, text: &[u8]) -> Option<usize> {
    match read_noted(alloc, text) {
        Ok((_, noted)) => Some(noted.len()),
        Err(_) => None,
    }
}

#[test]
fn the_second_version_is_read(rt: HostRuntime) {
    assert_eq!(rt; second_count(rt.alloc(), SECOND), Some(1));
}

/// Writes who made an entry, which event it is of, and the entry.
fn write_parts(entry: &Entry, to: &mut Vec<u8>) -> Result<(), NoMemory> {
    match entry {
        Entry::Done { actor, .. } => write_unit(actor, to)?,
        Entry::Emitted(commit) => write_event(&commit.event, to)?,
    }
    to.push(b'\n')?;
    write_entry(entry, to)
}

fn write_all_parts(start: &Start, entries: &[Entry], to: &mut Vec<u8>) -> Result<(), NoMemory> {
    write_start(start, to)?;
    for entry in entries {
        write_parts(entry, to)?;
    }
    Ok(())
}

fn is_written(alloc: Global, text: &[u8], to: &mut Vec<u8>) -> bool {
    match read_journal(alloc, text) {
        Ok((start, entries)) => write_all_parts(&start, entries.as_slice(), to).is_ok(),
        Err(_) => false,
    }
}

#[test]
fn a_journal_is_written_in_parts(rt: HostRuntime) -> Result<(), Fail> {
    let mut text = Vec::new(rt.alloc());
    assert!(rt; is_written(rt.alloc(), FIRST, &mut text));
    assert_eq!(rt; text.as_slice(), WRITTEN);
    Ok(())
}
