ghost use Rattle.std.specs.Prelude.{◌≡◌, ◌<◌, ◌^◌, ℕ, IfOk, length, slice_index_or};
ghost use Rattle.df_family.specs.Family.{begins_with};
ghost use Rattle.df_label.specs.Privileges.{contains as contains_privilege};
ghost use Rattle.df_label.specs.Tag.{maker_of};
ghost use Rattle.df_start.specs.declared.start.RootStart.{RootStart};
ghost use Rattle.df_lint.specs.code.Cells.{cells_at};
ghost use Rattle.df_lint.specs.code.First.{first_cell, first_cells};

use crate::cell::Cell;
use crate::row::Row;
use df_label::{Privilege, Right, Tag, TagSet};
use df_memory::NoMemory;
use df_start::RootStart;
use std::alloc::Global;

/// For each root what the start gives to it, and all privileges over the tags that one of its
/// family may make.
pub fn first_rows(alloc: Global, tags: &TagSet, roots: &[RootStart]) -> Result<Vec<Row>, NoMemory>
    requires { length roots.now < 2 ^ 32 }
    ensures count { IfOk result (λ rows. length rows.items ≡ length roots.now) }
    ensures rows { IfOk result (λ rows. (k : ℕ) (d : RootStart) → k < length roots.now →
        cells_at rows.items k ≡ first_cells tags.now k (slice_index_or roots.now k d)) }
{
    let mut rows = Vec::with_capacity(alloc, roots.len())?;
    for (number, root) in roots.iter().enumerate() {
        rows.push(first_row(alloc, tags.as_slice(), number as u32, root)?)?;
    }
    Ok(rows)
}

fn first_row(alloc: Global, tags: &[Tag], number: u32, root: &RootStart) -> Result<Row, NoMemory>
    ensures { IfOk result (λ row. row ≡ first_cells tags.now number root.now) }
{
    let mut cells = Vec::with_capacity(alloc, tags.len())?;
    for tag in tags {
        cells.push(first_cell(number, root, tag)?)?;
    }
    Ok(Row::new(cells))
}

fn first_cell(number: u32, root: &RootStart, tag: &Tag) -> Result<Cell, NoMemory>
    ensures { IfOk result (λ c. c ≡ first_cell number root.now tag.now) }
{
    let made = may_make(number, tag);
    Ok(Cell {
        asked: root.label.i.contains(tag),
        plus: made || is_given(root, tag, Right::Plus)?,
        minus: made || is_given(root, tag, Right::Minus)?,
        plus_auth: made || is_given(root, tag, Right::PlusAuth)?,
        minus_auth: made || is_given(root, tag, Right::MinusAuth)?,
    })
}

/// Whether one of the root's family may make the tag.
fn may_make(number: u32, tag: &Tag) -> bool
    ensures { result ≡ begins_with number (maker_of tag.now) }
{
    match tag.maker().first() {
        Some(first) => *first == number,
        None => false,
    }
}

/// Whether the start gives the root the right.
fn is_given(root: &RootStart, tag: &Tag, right: Right) -> Result<bool, NoMemory>
    ensures { IfOk result (λ b. b ≡ contains_privilege root.now.privileges
        (record { tag = tag.now; right = right })) }
{
    Ok(
        root.privileges.contains(&Privilege {
            tag: tag.copy()?,
            right,
        }),
    )
}
