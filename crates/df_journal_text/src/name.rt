ghost use Rattle.std.specs.Prelude.{◌≡◌, ◌++◌, OnOk};
ghost use Rattle.df_journal_text.specs.Name.{event_text, unit_text};
ghost use Rattle.df_value_text.specs.Label.{path_text};
ghost use Rattle.df_journal_text.specs.Line.{word};

use crate::line::append_short;
use df_label::TagSet;
use df_memory::NoMemory;
use df_unit::{EventName, Path, UnitName};
use df_value_text::{append_path, append_tags};

/// Appends a path. Most have one number.
#[inline(always)]
fn append_owner(path: &Path, to: &mut Vec<u8>) -> Result<(), NoMemory>
    ensures { OnOk result (to.new.items ≡ to.old.items ++ path_text path.now) }
{
    match path.as_slice() {
        [root] => append_short(*root, to),
        numbers => append_path(numbers, to),
    }
}

/// Appends a unit's name.
#[inline(always)]
pub fn append_unit(unit: &UnitName, to: &mut Vec<u8>) -> Result<(), NoMemory>
    ensures { OnOk result (to.new.items ≡ to.old.items ++ unit_text unit.now) }
{
    match unit {
        UnitName::Root(path) => append_owner(path, to),
        UnitName::Managed { owner, sub, s } => {
            append_owner(owner, to)?;
            append_instance(*sub, s, to)?;
            Ok(())
        }
    }
}

ghost use Rattle.std.specs.Prelude.{codes, decimal};
ghost use Rattle.df_value_text.specs.Label.{tags_text};

/// Appends what an instance's name has behind its owner's path.
fn append_instance(sub: u32, s: &TagSet, to: &mut Vec<u8>) -> Result<(), NoMemory>
    ensures { OnOk result (to.new.items ≡ to.old.items
        ++ (codes "/" ++ decimal sub ++ codes "{" ++ tags_text s.now ++ codes "}")) }
{
    to.push(b'/')?;
    append_short(sub, to)?;
    to.push(b'{')?;
    append_tags(s, to)?;
    to.push(b'}')?;
    Ok(())
}

/// Appends an event's name.
pub fn append_event(event: &EventName, to: &mut Vec<u8>) -> Result<(), NoMemory>
    ensures { OnOk result (to.new.items ≡ to.old.items ++ event_text event.now) }
{
    append_unit(&event.unit, to)?;
    to.push(b'!')?;
    append_short(event.number, to)?;
    Ok(())
}

/// Appends an event's name as a word.
pub(crate) fn append_event_word(event: &EventName, to: &mut Vec<u8>) -> Result<(), NoMemory>
    ensures { OnOk result (to.new.items ≡ to.old.items ++ word (event_text event.now)) }
{
    to.push(b' ')?;
    append_event(event, to)?;
    Ok(())
}
