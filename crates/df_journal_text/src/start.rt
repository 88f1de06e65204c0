ghost use Rattle.std.specs.Prelude.{◌≡◌, ◌++◌, OnOk};
ghost use Rattle.df_journal_text.specs.Start.{head_text, root_line, start_text};

use crate::line::{append_label_word, append_number_word, append_privilege_words};
use df_memory::NoMemory;
use df_start::{RootStart, Start};

/// Appends the line of a root.
fn append_root(number: u32, root: &RootStart, to: &mut Vec<u8>) -> Result<(), NoMemory>
    ensures { OnOk result (to.new.items ≡ to.old.items ++ root_line number root.now) }
{
    to.extend_from_slice(b"unit")?;
    append_number_word(u64::from(number), to)?;
    append_label_word(&root.label, to)?;
    append_privilege_words(root.privileges.as_slice(), to)?;
    to.push(b'\n')?;
    Ok(())
}

/// Appends the lines of a start between two texts.
fn append_between(
    first: &[u8],
    start: &Start,
    last: &[u8],
    to: &mut Vec<u8>,
) -> Result<(), NoMemory>
    ensures { OnOk result (to.new.items ≡ to.old.items
        ++ (first.now ++ start_text start.now ++ last.now)) }
{
    to.extend_from_slice(first)?;
    append_start(start, to)?;
    to.extend_from_slice(last)?;
    Ok(())
}

/// Appends the first line of a journal, in its second version, the lines of its start, and the
/// line before its entries.
pub fn append_head(start: &Start, to: &mut Vec<u8>) -> Result<(), NoMemory>
    ensures { OnOk result (to.new.items ≡ to.old.items ++ head_text start.now) }
{
    append_between(b"defcon-journal 2\n", start, b"run\n", to)
}

/// Appends the lines of a start.
pub fn append_start(start: &Start, to: &mut Vec<u8>) -> Result<(), NoMemory>
    ensures { OnOk result (to.new.items ≡ to.old.items ++ start_text start.now) }
{
    for (i, root) in start.as_slice().iter().enumerate() {
        append_root(i as u32, root, to)?;
    }
    Ok(())
}
