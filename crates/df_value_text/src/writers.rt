//! The public writers. The text is made whole and then appended, so that without memory the buffer
//! is as it was.
ghost use Rattle.std.specs.Prelude.{◌≡◌, ◌++◌, OnErr, OnOk};
ghost use Rattle.df_frozen.specs.Value.{plain};
ghost use Rattle.df_value_text.specs.Label.{label_text, privilege_text, tag_text};
ghost use Rattle.df_value_text.specs.Value.{value_text};

use crate::{append_label, append_privilege, append_tag, append_value};
use df_frozen::Value;
use df_label::{Label, Privilege, Tag};
use df_memory::NoMemory;

/// Appends the spelling of a tag.
pub fn write_tag(tag: &Tag, to: &mut Vec<u8>) -> Result<(), NoMemory>
    ensures ok { OnOk result (to.new.items ≡ to.old.items ++ tag_text tag.now) }
    ensures err { OnErr result (to.new.items ≡ to.old.items) }
{
    let mut text = Vec::new(*to.allocator());
    append_tag(tag, &mut text)?;
    to.extend_from_slice(text.as_slice())?;
    Ok(())
}

/// Appends the spelling of a label.
pub fn write_label(label: &Label, to: &mut Vec<u8>) -> Result<(), NoMemory>
    ensures ok { OnOk result (to.new.items ≡ to.old.items ++ label_text label.now) }
    ensures err { OnErr result (to.new.items ≡ to.old.items) }
{
    let mut text = Vec::new(*to.allocator());
    append_label(label, &mut text)?;
    to.extend_from_slice(text.as_slice())?;
    Ok(())
}

/// Appends the spelling of a privilege.
pub fn write_privilege(privilege: &Privilege, to: &mut Vec<u8>) -> Result<(), NoMemory>
    ensures ok { OnOk result (to.new.items ≡ to.old.items ++ privilege_text privilege.now) }
    ensures err { OnErr result (to.new.items ≡ to.old.items) }
{
    let mut text = Vec::new(*to.allocator());
    append_privilege(privilege, &mut text)?;
    to.extend_from_slice(text.as_slice())?;
    Ok(())
}

/// Appends the spelling of a value.
pub fn write_value(value: &Value, to: &mut Vec<u8>) -> Result<(), NoMemory>
    ensures ok { OnOk result (to.new.items ≡ to.old.items ++ value_text (plain value.now)) }
    ensures err { OnErr result (to.new.items ≡ to.old.items) }
{
    let mut text = Vec::new(*to.allocator());
    append_value(value, &mut text)?;
    to.extend_from_slice(text.as_slice())?;
    Ok(())
}
