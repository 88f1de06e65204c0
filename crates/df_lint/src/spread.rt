ghost use Rattle.std.specs.Prelude.{◌≡◌, ◌<◌, ℕ, IfOk, OnOk, false, length, slice_set, true};
ghost use Rattle.std.specs.List.{Contains, list_any};
ghost use Rattle.df_lint.specs.code.Cells.{attaches, cells_at};
ghost use Rattle.df_lint.specs.code.Passing.{Gains};
ghost use Rattle.df_lint.specs.code.Rows.{IsGivenBy, IsTable, Settles, row_at, rows_of};
ghost use Rattle.df_lint.specs.code.Spread.{Extends, IsSeenBy, IsSpread};

use crate::row::{Row, attaches_at, pass_between, reaches_between};
use df_label::Tag;
use df_memory::NoMemory;
use df_start::RootStart;
use std::alloc::Global;

/// Passes on, until nothing more comes of it, what the family of one root may attach for that of
/// another to read. A root waits while what it has may concern others.
pub fn spread(
    alloc: Global,
    roots: &[RootStart],
    tags: &[Tag],
    rows: &mut Vec<Row>,
) -> Result<(), NoMemory>
    requires { IsTable roots.now tags.now rows.old.items }
    ensures table { OnOk result (IsTable roots.now tags.now rows.new.items) }
    ensures spread { OnOk result (IsSpread roots.now (rows_of tags.now rows.old.items)
        (rows_of tags.now rows.new.items)) }
{
    let mut waiting = givers(alloc, rows)?;
    while let Some(root) = waiting.pop() {
        settle_all(alloc, roots, tags, rows, &mut waiting, root)?;
    }
    Ok(())
}

/// The places of the rows of which something may be passed on. Between the others nothing may.
fn givers(alloc: Global, rows: &Vec<Row>) -> Result<Vec<usize>, NoMemory>
    ensures all { IfOk result (λ places. (k : ℕ) → list_any attaches (cells_at rows.now.items k) ≡ true →
        Contains places.items k) }
    ensures only { IfOk result (λ places. (k : ℕ) → Contains places.items k →
        k < length rows.now.items) }
{
    let mut places = Vec::new(alloc);
    for place in 0..rows.len() {
        if attaches_at(rows, place) {
            places.push(place)?;
        }
    }
    Ok(places)
}

/// Passes on between the root and each root, both ways.
fn settle_all(
    alloc: Global,
    roots: &[RootStart],
    tags: &[Tag],
    rows: &mut Vec<Row>,
    waiting: &mut Vec<usize>,
    root: usize,
) -> Result<(), NoMemory>
    requires root { root < length roots.now }
    requires table { IsTable roots.now tags.now rows.old.items }
    ensures table { OnOk result (IsTable roots.now tags.now rows.new.items) }
    ensures extends { OnOk result (Extends roots.now (rows_of tags.now rows.old.items)
        waiting.old.items (rows_of tags.now rows.new.items) waiting.new.items) }
    ensures seen { OnOk result (IsSeenBy roots.now (rows_of tags.now rows.new.items)
        waiting.new.items root (length roots.now)) }
{
    for other in 0..roots.len() {
        settle(alloc, roots, tags, rows, waiting, root, other)?;
        settle(alloc, roots, tags, rows, waiting, other, root)?;
    }
    Ok(())
}

/// Passes on from one root to another, which then waits if it got anything.
fn settle(
    alloc: Global,
    roots: &[RootStart],
    tags: &[Tag],
    rows: &mut Vec<Row>,
    waiting: &mut Vec<usize>,
    from: usize,
    to: usize,
) -> Result<(), NoMemory>
    requires from { from < length roots.now }
    requires to { to < length roots.now }
    requires table { IsTable roots.now tags.now rows.old.items }
    ensures table { OnOk result (IsTable roots.now tags.now rows.new.items) }
    ensures settles { OnOk result (Settles roots.now from to (rows_of tags.now rows.old.items)
        waiting.old.items (rows_of tags.now rows.new.items) waiting.new.items) }
{
    if settle_row(alloc, roots, tags, rows, from, to)? && !waiting.contains(&to) {
        waiting.push(to)?;
    }
    Ok(())
}

/// Passes on from one root to another. Whether that was anything new.
fn settle_row(
    alloc: Global,
    roots: &[RootStart],
    tags: &[Tag],
    rows: &mut Vec<Row>,
    from: usize,
    to: usize,
) -> Result<bool, NoMemory>
    requires from { from < length roots.now }
    requires to { to < length roots.now }
    requires table { IsTable roots.now tags.now rows.old.items }
    ensures rows { OnOk result (rows_of tags.now rows.new.items ≡ slice_set
        (rows_of tags.now rows.old.items) to (row_at (rows_of tags.now rows.new.items) to)) }
    ensures passed { OnOk result (IsGivenBy roots.now from to (rows_of tags.now rows.old.items)
        (row_at (rows_of tags.now rows.new.items) to)) }
    ensures gains { IfOk result (λ b. b ≡ true → Gains
        (row_at (rows_of tags.now rows.old.items) to)
        (row_at (rows_of tags.now rows.new.items) to)) }
    ensures same { IfOk result (λ b. b ≡ false →
        rows_of tags.now rows.new.items ≡ rows_of tags.now rows.old.items) }
    ensures table { OnOk result (IsTable roots.now tags.now rows.new.items) }
{
    if !reaches_between(rows, from, to) {
        return Ok(false);
    }
    Ok(pass_between(alloc, rows, from, to)?)
}
