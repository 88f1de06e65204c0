ghost use Rattle.std.specs.Prelude.{◌≡◌, ◌++◌, OnOk};
ghost use Rattle.df_value_text.specs.Label.{label_text, tags_text};

use df_label::{Label, TagSet};
use df_memory::NoMemory;

/// Appends the tags of a set with `,` between them; of the empty set no bytes.
pub fn append_tags(tags: &TagSet, to: &mut Vec<u8>) -> Result<(), NoMemory>
    ensures { OnOk result (to.new.items ≡ to.old.items ++ tags_text tags.now) }
{
    tags.append_to(to)
}

/// Appends a label: its two sets of tags in braces, with a bar between them.
pub fn append_label(label: &Label, to: &mut Vec<u8>) -> Result<(), NoMemory>
    ensures { OnOk result (to.new.items ≡ to.old.items ++ label_text label.now) }
{
    to.push(b'{')?;
    append_tags(&label.s, to)?;
    to.push(b'|')?;
    append_tags(&label.i, to)?;
    to.push(b'}')?;
    Ok(())
}
