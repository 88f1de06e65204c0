//! How tags are spelled.
ghost use Rattle.std.specs.Prelude.{◌≡◌, ◌++◌, All, OnOk, decimal};
ghost use Rattle.df_label.specs.Spelling.{AreShort, path_text, separator, tag_text, tags_text};

use crate::Tag;
use df_memory::NoMemory;
use itoa::Buffer;

/// Appends a number in decimal digits.
pub fn append_number(number: u64, to: &mut Vec<u8>) -> Result<(), NoMemory>
    ensures { OnOk result (to.new.items ≡ to.old.items ++ decimal number) }
{
    let mut buffer = Buffer::new();
    to.extend_from_slice(buffer.format(number).as_bytes())?;
    Ok(())
}

/// Appends what stands in front of the item at a place: the byte between two items, and before
/// the first item nothing.
pub fn append_separator(between: u8, place: usize, to: &mut Vec<u8>) -> Result<(), NoMemory>
    ensures { OnOk result (to.new.items ≡ to.old.items ++ separator between place) }
{
    if place > 0 {
        to.push(between)?;
    }
    Ok(())
}

/// Appends numbers with `.` between them.
pub fn append_path(numbers: &[u32], to: &mut Vec<u8>) -> Result<(), NoMemory>
    ensures { OnOk result (to.new.items ≡ to.old.items ++ path_text numbers.now) }
{
    for (i, number) in numbers.iter().enumerate() {
        append_separator(b'.', i, to)?;
        append_number(u64::from(*number), to)?;
    }
    Ok(())
}

/// Appends a tag: `#`, and then its maker's numbers and its own with `.` between them.
pub fn append_tag(tag: &Tag, to: &mut Vec<u8>) -> Result<(), NoMemory>
    ensures { OnOk result (to.new.items ≡ to.old.items ++ tag_text tag.now) }
{
    to.push(b'#')?;
    append_path(tag.as_slice(), to)?;
    Ok(())
}

/// Appends tags with `,` between them.
pub(crate) fn append_each(tags: &[Tag], to: &mut Vec<u8>) -> Result<(), NoMemory>
    ensures text { OnOk result (to.new.items ≡ to.old.items ++ tags_text tags.now) }
    ensures short { OnOk result (All AreShort tags.now) }
{
    for (i, tag) in tags.iter().enumerate() {
        append_separator(b',', i, to)?;
        append_tag(tag, to)?;
        are_short(tag.as_slice());
    }
    Ok(())
}

/// Numbers have 32 bits.
fn are_short(numbers: &[u32])
    ensures { AreShort numbers.now }
{
    let _ = numbers;
}
