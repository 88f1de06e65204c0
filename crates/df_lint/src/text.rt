//! The lines that tell which privileges each root's family may hold.

ghost use Rattle.std.specs.Prelude.{◌≡◌, ◌++◌, ◌<◌, ℕ, IfOk, OnOk, codes, length, map};
ghost use Rattle.std.specs.List.{flat_map};
ghost use Rattle.df_label.specs.Privileges.{contains as contains_privilege};
ghost use Rattle.df_start.specs.Begun.{begun};
ghost use Rattle.df_lint.specs.LintText.{IsLintText, lint_line, lint_lines, may_text, tag_lines};
ghost use Rattle.df_label.specs.Ascending.{IsAscending};
ghost use Rattle.df_label.specs.Tag.{tag_cmp};
ghost use Rattle.df_lint.specs.code.Cells.{cells_at, has, row_of};
ghost use Rattle.df_lint.specs.code.Rows.{found, rows_of};

use crate::cell::Cell;
use crate::find::lint;
use crate::row::Row;
use df_label::{Privilege, Right, Tag};
use df_memory::NoMemory;
use df_start::Start;
use df_value_text::{append_number, append_privilege};
use std::alloc::Global;

/// The lines of a start: for each root and each privilege over its tags, `may` or `never`.
pub fn lint_text(alloc: Global, start: &Start) -> Result<Vec<u8>, NoMemory>
    ensures { IfOk result (λ text. IsLintText (map begun start.now) text.items) }
{
    let lint = lint(alloc, start)?;
    lint.text(alloc)
}

/// Appends the lines of the roots with these rows.
pub fn append_rows(tags: &[Tag], rows: &[Row], to: &mut Vec<u8>) -> Result<(), NoMemory>
    requires ascending { IsAscending tag_cmp tags.now }
    requires many { (k : ℕ) → k < length rows.now →
        length (cells_at rows.now k) ≡ length tags.now }
    ensures { OnOk result (to.new.items ≡ to.old.items
        ++ lint_lines (found (rows_of tags.now rows.now)) tags.now (length rows.now)) }
{
    for root in 0..rows.len() {
        append_row(root as u64, rows[root].cells(), tags, to)?;
    }
    Ok(())
}

/// Appends the lines of a root.
fn append_row(root: u64, cells: &[Cell], tags: &[Tag], to: &mut Vec<u8>) -> Result<(), NoMemory>
    requires ascending { IsAscending tag_cmp tags.now }
    requires many { length cells.now ≡ length tags.now }
    ensures { OnOk result (to.new.items ≡ to.old.items
        ++ flat_map (tag_lines root (contains_privilege (row_of tags.now cells.now))) tags.now) }
{
    for place in 0..tags.len() {
        append_tag(root, cells[place], &tags[place], to)?;
    }
    Ok(())
}

/// Appends the lines of a root and a tag.
fn append_tag(root: u64, cell: Cell, tag: &Tag, to: &mut Vec<u8>) -> Result<(), NoMemory>
    ensures { OnOk result (to.new.items ≡ to.old.items
        ++ tag_lines root (λ p. has cell p.right) tag.now) }
{
    append_line(root, tag, Right::Plus, cell.plus, to)?;
    append_line(root, tag, Right::Minus, cell.minus, to)?;
    append_line(root, tag, Right::PlusAuth, cell.plus_auth, to)?;
    append_line(root, tag, Right::MinusAuth, cell.minus_auth, to)?;
    Ok(())
}

/// Appends the line of a root and a privilege.
fn append_line(
    root: u64,
    tag: &Tag,
    right: Right,
    may: bool,
    to: &mut Vec<u8>,
) -> Result<(), NoMemory>
    ensures { OnOk result (to.new.items ≡ to.old.items
        ++ lint_line root (record { tag = tag.now; right = right }) may) }
{
    let p = Privilege {
        tag: tag.copy()?,
        right,
    };
    append_number(root, to)?;
    to.push(b' ')?;
    append_privilege(&p, to)?;
    append_word(may, to)
}

/// Appends the last word of a line.
fn append_word(may: bool, to: &mut Vec<u8>) -> Result<(), NoMemory>
    ensures { OnOk result
        (to.new.items ≡ to.old.items ++ (codes " " ++ may_text may ++ codes "\n")) }
{
    if may {
        to.extend_from_slice(b" may\n")?;
    } else {
        to.extend_from_slice(b" never\n")?;
    }
    Ok(())
}
