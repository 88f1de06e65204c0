//! Texts of an audit.
ghost use Rattle.std.specs.Prelude.{◌≡◌, ◌++◌, IfOk, OnOk};
ghost use Rattle.std.specs.List.{flat_map};
ghost use Rattle.df_journal_text.specs.Entry.{entry_text, noted_text};
ghost use Rattle.df_journal_text.specs.Start.{journal_text};
ghost use Rattle.df_audit.specs.Audit.{valid_text, wrong_text};

use df_journal_text::{write_head, write_noted, write_noting};
use df_label::Label;
use df_memory::NoMemory;
use df_start::Start;
use df_unit::{Entry, Noted};
use df_value_text::append_number;
use std::alloc::Global;

/// What is told of a right journal with so many entries.
pub fn valid_text(alloc: Global, count: usize) -> Result<Vec<u8>, NoMemory>
    ensures { IfOk result (λ text. text.items ≡ valid_text count) }
{
    let mut text = Vec::new(alloc);
    text.extend_from_slice(b"valid ")?;
    append_number(count as u64, &mut text)?;
    text.push(b'\n')?;
    Ok(text)
}

/// What is told of a wrong place: what is kept there, and what the rules give.
pub fn wrong_text(
    alloc: Global,
    place: u64,
    kept: &Entry,
    kept_note: &Option<Label>,
    expected: &Entry,
    expected_note: &Option<Label>,
) -> Result<Vec<u8>, NoMemory>
    ensures { IfOk result (λ text. text.items ≡ wrong_text place
        (entry_text kept_note.now kept.now) (entry_text expected_note.now expected.now)) }
{
    let mut text = Vec::new(alloc);
    text.extend_from_slice(b"wrong ")?;
    append_number(place, &mut text)?;
    text.extend_from_slice(b"\nkept\n")?;
    write_noting(kept, kept_note, &mut text)?;
    text.extend_from_slice(b"expected\n")?;
    write_noting(expected, expected_note, &mut text)?;
    Ok(text)
}

/// Appends noted entries.
pub fn write_notes(notes: &[Noted], to: &mut Vec<u8>) -> Result<(), NoMemory>
    ensures { OnOk result (to.new.items ≡ to.old.items ++ flat_map noted_text notes.now) }
{
    for noted in notes {
        write_noted(noted, to)?;
    }
    Ok(())
}

/// A journal in its second version.
pub fn noted_text(alloc: Global, start: &Start, notes: &[Noted]) -> Result<Vec<u8>, NoMemory>
    ensures { IfOk result (λ text. text.items ≡ journal_text start.now notes.now) }
{
    let mut text = Vec::new(alloc);
    write_head(start, &mut text)?;
    write_notes(notes, &mut text)?;
    Ok(text)
}
