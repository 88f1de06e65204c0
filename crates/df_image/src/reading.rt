//! Records: how a start and an entry are spelled, and what a record's bytes are.
ghost use Rattle.std.specs.Prelude.{◌≡◌, ◌≢◌, ◌↔◌, IfOk, IsTrue, None, OnOk};
ghost use Rattle.df_image.specs.Image.{entry_record, start_record};
ghost use Rattle.df_image.specs.Reading.{TellsEntry, TellsLast, TellsStart};
ghost use Rattle.df_lines.specs.declared.refused.FileRefused.TheVariants as refused;

use df_journal_file::read_journal;
use df_journal_text::{write_entry, write_start};
use df_lines::FileRefused;
use df_memory::NoMemory;
use df_start::Start;
use df_unit::Entry;
use std::alloc::Global;

/// What stands before an entry in a journal without roots.
const HEAD: &[u8] = b"defcon-journal 1\nrun\n";

/// The first record: a journal with this start and no entry.
pub(crate) fn start_text(alloc: Global, start: &Start) -> Result<Vec<u8>, NoMemory>
    ensures { IfOk result (λ text. text.items ≡ start_record start.now) }
{
    let mut text = Vec::new(alloc);
    text.extend_from_slice(b"defcon-journal 1\n")?;
    write_start(start, &mut text)?;
    text.extend_from_slice(b"run\n")?;
    Ok(text)
}

/// The record of an entry.
pub(crate) fn entry_text(alloc: Global, entry: &Entry) -> Result<Vec<u8>, NoMemory>
    ensures { IfOk result (λ text. text.items ≡ entry_record entry.now) }
{
    let mut text = Vec::new(alloc);
    write_entry(entry, &mut text)?;
    Ok(text)
}

fn is_text(text: &[u8], bytes: &[u8]) -> bool
    ensures { IsTrue result ↔ text.now ≡ bytes.now }
{
    text == bytes
}

/// Nothing, where the bytes were refused, and not for want of memory.
fn unread<T>(why: FileRefused) -> Result<Option<T>, NoMemory>
    ensures none { IfOk result (λ x. x ≡ None) }
    ensures bad { OnOk result (why ≢ refused.NoMemory) }
{
    match why {
        FileRefused::NoMemory => Err(NoMemory),
        _ => Ok(None),
    }
}

/// The start of which a record is, if it is of one.
pub fn start_of(alloc: Global, bytes: &[u8]) -> Result<Option<Start>, NoMemory>
    ensures { IfOk result (TellsStart bytes.now) }
{
    let start = match read_journal(alloc, bytes) {
        Ok((start, _)) => start,
        Err(why) => return unread(why),
    };
    if is_text(&start_text(alloc, &start)?, bytes) {
        return Ok(Some(start));
    }
    Ok(None)
}

/// The last entry of a journal without roots, of which these bytes are the entries.
fn last_of(alloc: Global, bytes: &[u8]) -> Result<Option<Entry>, NoMemory>
    ensures { IfOk result (TellsLast bytes.now) }
{
    let mut whole = Vec::from_slice(alloc, HEAD)?;
    whole.extend_from_slice(bytes)?;
    let mut entries = match read_journal(alloc, &whole) {
        Ok((_, entries)) => entries,
        Err(why) => return unread(why),
    };
    Ok(entries.pop())
}

/// The entry of which a record is, if it is of one.
pub fn entry_of(alloc: Global, bytes: &[u8]) -> Result<Option<Entry>, NoMemory>
    ensures { IfOk result (TellsEntry bytes.now) }
{
    let Some(entry) = last_of(alloc, bytes)? else {
        return Ok(None);
    };
    match entry_text(alloc, &entry) {
        Ok(text) if is_text(&text, bytes) => Ok(Some(entry)),
        Ok(_) => {
            drop(entry);
            Ok(None)
        }
        Err(refused) => {
            drop(entry);
            Err(refused)
        }
    }
}
