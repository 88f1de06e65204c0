ghost use Rattle.std.specs.Prelude.{◌≡◌, ◌<◌, ◌∷◌, ◌++◌, [], OnOk, codes, decimal};
ghost use Rattle.std.specs.List.{flat_map};
ghost use Rattle.df_unit.specs.Drafts.{show};
ghost use Rattle.df_value_text.specs.Label.{label_text};
ghost use Rattle.df_journal_text.specs.Line.{line, word};
ghost use Rattle.df_journal_text.specs.Name.{event_text};
ghost use Rattle.df_journal_text.specs.Entry.{edit_text, effect_text, given_text, part_line, read_line, spot_line};

use crate::line::{append_label_word, append_name_word, append_privilege_words, append_value_word};
use crate::name::append_event_word;
use crate::note::is_empty;
use df_frozen::Frozen;
use df_label::{Label, Privileges};
use df_memory::NoMemory;
use df_part::{Edit, Part, PartRef, Spot};
use df_unit::{Commit, Effect, EventName, Given, PartRead, UnitName};
use df_value_text::put_few;

/// Appends a label behind a mark. Most have no tag.
fn append_marked(mark: u8, label: &Label, to: &mut Vec<u8>) -> Result<(), NoMemory>
    ensures { OnOk result (to.new.items ≡ to.old.items ++ (mark ∷ word (label_text label.now))) }
{
    to.reserve(5)?;
    to.push_reserved(mark);
    if !is_empty(label) {
        return append_label_word(label, to);
    }
    to.push_reserved(b' ');
    to.push_reserved(b'{');
    to.push_reserved(b'|');
    to.push_reserved(b'}');
    Ok(())
}

/// Appends a part behind a mark.
fn append_part(mark: u8, part: &Part, to: &mut Vec<u8>) -> Result<(), NoMemory>
    ensures { OnOk result (to.new.items ≡ to.old.items ++ part_line (mark ∷ []) part.now) }
{
    append_marked(mark, &part.label, to)?;
    append_name_word(&part.name, to)?;
    append_value_word(&part.value, to)?;
    append_privilege_words(part.privileges.as_slice(), to)?;
    to.push(b'\n')?;
    Ok(())
}

/// Appends each part behind a mark.
fn append_parts(mark: u8, parts: &[PartRef], to: &mut Vec<u8>) -> Result<(), NoMemory>
    ensures { OnOk result (to.new.items ≡ to.old.items
        ++ flat_map (part_line (mark ∷ [])) parts.now) }
{
    for part in parts {
        append_part(mark, part.part(), to)?;
    }
    Ok(())
}

fn append_spot(spot: &Spot, to: &mut Vec<u8>) -> Result<(), NoMemory>
    ensures { OnOk result (to.new.items ≡ to.old.items ++ spot_line spot.now) }
{
    append_marked(b'-', &spot.label, to)?;
    append_name_word(&spot.name, to)?;
    to.push(b'\n')?;
    Ok(())
}

fn append_spots(spots: &[Spot], to: &mut Vec<u8>) -> Result<(), NoMemory>
    ensures { OnOk result (to.new.items ≡ to.old.items ++ flat_map spot_line spots.now) }
{
    for spot in spots {
        append_spot(spot, to)?;
    }
    Ok(())
}

/// Appends what a commit deletes and then what it adds.
pub fn append_edit(edit: &Edit, to: &mut Vec<u8>) -> Result<(), NoMemory>
    ensures { OnOk result (to.new.items ≡ to.old.items ++ edit_text edit.now) }
{
    append_spots(edit.deleted(), to)?;
    append_parts(b'+', edit.added(), to)?;
    Ok(())
}

/// Appends what a read shows of a part with this label, value and privileges.
#[inline(always)]
fn append_content(
    label: &Label,
    value: &Frozen,
    privileges: &Privileges,
    to: &mut Vec<u8>,
) -> Result<(), NoMemory>
    ensures { OnOk result (to.new.items ≡ to.old.items ++ read_line (record {
      label = label.now;
      value = value.now;
      privileges = privileges.now;
    })) }
{
    append_marked(b':', label, to)?;
    append_value_word(value, to)?;
    append_privilege_words(privileges.as_slice(), to)?;
    to.push(b'\n')?;
    Ok(())
}

/// Appends what a read shows of a part.
fn append_read(part: &PartRead, to: &mut Vec<u8>) -> Result<(), NoMemory>
    ensures { OnOk result (to.new.items ≡ to.old.items ++ read_line part.now) }
{
    append_content(&part.label, &part.value, &part.privileges, to)
}

/// Appends what a read shows of a part, which isn't copied.
pub fn append_seen(part: &Part, to: &mut Vec<u8>) -> Result<(), NoMemory>
    ensures { OnOk result (to.new.items ≡ to.old.items ++ read_line (show part.now)) }
{
    append_content(&part.label, &part.value, &part.privileges, to)
}

/// Appends what a read shows.
#[inline(never)]
pub fn append_reads(parts: &[PartRead], to: &mut Vec<u8>) -> Result<(), NoMemory>
    ensures { OnOk result (to.new.items ≡ to.old.items ++ flat_map read_line parts.now) }
{
    for part in parts {
        append_read(part, to)?;
    }
    Ok(())
}

/// Appends an event's name as a word, and ends the line.
pub fn append_event_line(event: &EventName, to: &mut Vec<u8>) -> Result<(), NoMemory>
    ensures { OnOk result (to.new.items ≡ to.old.items ++ line [] (event_text event.now ∷ [])) }
{
    append_event_word(event, to)?;
    to.push(b'\n')?;
    Ok(())
}

/// Appends the name of a root's event behind a mark, and ends the line.
#[inline(always)]
fn append_few(mark: u8, root: u32, number: u32, to: &mut Vec<u8>) -> Result<(), NoMemory>
    requires root { root < 10000 }
    requires number { number < 10000 }
    ensures { OnOk result (to.new.items ≡ to.old.items
        ++ line (mark ∷ []) ((decimal root ++ codes "!" ++ decimal number) ∷ [])) }
{
    to.reserve(12)?;
    to.push_reserved(mark);
    to.push_reserved(b' ');
    put_few(root, to);
    to.push_reserved(b'!');
    put_few(number, to);
    to.push_reserved(b'\n');
    Ok(())
}

/// Appends an event's name behind a mark, and ends the line. Most are of roots, and of few digits.
fn append_marked_event(mark: u8, event: &EventName, to: &mut Vec<u8>) -> Result<(), NoMemory>
    ensures { OnOk result (to.new.items ≡ to.old.items
        ++ line (mark ∷ []) (event_text event.now ∷ [])) }
{
    if let UnitName::Root(path) = &event.unit
        && let [root] = path.as_slice()
        && *root < 10_000
        && event.number < 10_000
    {
        return append_few(mark, *root, event.number, to);
    }
    to.push(mark)?;
    append_event_line(event, to)
}

fn append_commit(commit: &Commit, to: &mut Vec<u8>) -> Result<(), NoMemory>
    ensures { OnOk result (to.new.items ≡ to.old.items ++ effect_text (Effect.Commit commit.now)) }
{
    append_marked_event(b'=', &commit.event, to)?;
    append_edit(&commit.edit, to)?;
    Ok(())
}

pub fn append_given(given: &Given, to: &mut Vec<u8>) -> Result<(), NoMemory>
    ensures { OnOk result (to.new.items ≡ to.old.items ++ given_text given.now) }
{
    append_marked_event(b'<', &given.event, to)?;
    append_parts(b'.', given.parts.as_slice(), to)?;
    Ok(())
}

/// Appends the lines of an effect.
pub fn append_effect(effect: &Effect, to: &mut Vec<u8>) -> Result<(), NoMemory>
    ensures { OnOk result (to.new.items ≡ to.old.items ++ effect_text effect.now) }
{
    match effect {
        Effect::Nothing => Ok(()),
        Effect::Commit(commit) => append_commit(commit, to),
        Effect::Given(given) => append_given(given, to),
    }
}
