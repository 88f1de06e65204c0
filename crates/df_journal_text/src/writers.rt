//! The public writers. The text is made whole and then appended, so that without memory the buffer
//! is as it was.
ghost use Rattle.std.specs.Prelude.{◌≡◌, ◌++◌, None, OnErr, OnOk};
ghost use Rattle.df_journal_text.specs.Entry.{entry_text, noted_text};
ghost use Rattle.df_journal_text.specs.Name.{event_text, unit_text};
ghost use Rattle.df_journal_text.specs.Start.{head_text, start_text};

use crate::entry::append_entry;
use crate::name::{append_event, append_unit};
use crate::start::{append_head, append_start};
use df_label::Label;
use df_memory::NoMemory;
use df_start::Start;
use df_unit::{Entry, EventName, Noted, UnitName};

// Most entries have no more bytes.
const COMMON_TEXT: usize = 256;

/// Appends a unit's name.
pub fn write_unit(unit: &UnitName, to: &mut Vec<u8>) -> Result<(), NoMemory>
    ensures ok { OnOk result (to.new.items ≡ to.old.items ++ unit_text unit.now) }
    ensures err { OnErr result (to.new.items ≡ to.old.items) }
{
    let mut text = Vec::new(*to.allocator());
    append_unit(unit, &mut text)?;
    to.extend_from_slice(text.as_slice())?;
    Ok(())
}

/// Appends an event's name.
pub fn write_event(event: &EventName, to: &mut Vec<u8>) -> Result<(), NoMemory>
    ensures ok { OnOk result (to.new.items ≡ to.old.items ++ event_text event.now) }
    ensures err { OnErr result (to.new.items ≡ to.old.items) }
{
    let mut text = Vec::new(*to.allocator());
    append_event(event, &mut text)?;
    to.extend_from_slice(text.as_slice())?;
    Ok(())
}

/// Appends the lines of a start.
pub fn write_start(start: &Start, to: &mut Vec<u8>) -> Result<(), NoMemory>
    ensures ok { OnOk result (to.new.items ≡ to.old.items ++ start_text start.now) }
    ensures err { OnErr result (to.new.items ≡ to.old.items) }
{
    let mut text = Vec::new(*to.allocator());
    append_start(start, &mut text)?;
    to.extend_from_slice(text.as_slice())?;
    Ok(())
}

/// Appends the first line of a journal, in its second version, the lines of its start, and the
/// line before its entries.
pub fn write_head(start: &Start, to: &mut Vec<u8>) -> Result<(), NoMemory>
    ensures ok { OnOk result (to.new.items ≡ to.old.items ++ head_text start.now) }
    ensures err { OnErr result (to.new.items ≡ to.old.items) }
{
    let mut text = Vec::new(*to.allocator());
    append_head(start, &mut text)?;
    to.extend_from_slice(text.as_slice())?;
    Ok(())
}

/// Appends the lines of an entry and of the contamination that is noted of it, where one is.
pub fn write_noting(
    entry: &Entry,
    contamination: &Option<Label>,
    to: &mut Vec<u8>,
) -> Result<(), NoMemory>
    ensures ok { OnOk result
        (to.new.items ≡ to.old.items ++ entry_text contamination.now entry.now) }
    ensures err { OnErr result (to.new.items ≡ to.old.items) }
{
    let mut text = Vec::with_capacity(*to.allocator(), COMMON_TEXT)?;
    append_entry(entry, contamination, &mut text)?;
    to.extend_from_slice(text.as_slice())?;
    Ok(())
}

/// Appends the lines of an entry, of which nothing is noted.
pub fn write_entry(entry: &Entry, to: &mut Vec<u8>) -> Result<(), NoMemory>
    ensures ok { OnOk result (to.new.items ≡ to.old.items ++ entry_text None entry.now) }
    ensures err { OnErr result (to.new.items ≡ to.old.items) }
{
    write_noting(entry, &None, to)
}

/// Appends the lines of a noted entry.
pub fn write_noted(noted: &Noted, to: &mut Vec<u8>) -> Result<(), NoMemory>
    ensures ok { OnOk result (to.new.items ≡ to.old.items ++ noted_text noted.now) }
    ensures err { OnErr result (to.new.items ≡ to.old.items) }
{
    write_noting(&noted.entry, &noted.contamination, to)
}
