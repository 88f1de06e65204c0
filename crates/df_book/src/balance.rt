//! Trees of entries in balance: neither side of a node is much higher than the other.

ghost use Rattle.std.specs.Prelude.{◌≡◌, ◌++◌, ◌∷◌, IfOk};
ghost use Rattle.df_book.specs.code.Nodes.{entries_at};

use crate::entry::Entry;
use crate::tree::{Fork, Tree, joined_by};
use df_memory::NoMemory;
use std::alloc::Global;

/// The entries of two trees, with one between them. Nodes move where one side is higher by two.
pub(crate) fn balanced(
    alloc: Global,
    left: Tree,
    entry: Entry,
    right: Tree,
) -> Result<Tree, NoMemory>
    ensures { IfOk result (λ t. t ≡ left ++ entry ∷ right) }
{
    if left.height() > right.height().saturating_add(1) {
        return lean_left(alloc, left, entry, right);
    }
    if right.height() > left.height().saturating_add(1) {
        return lean_right(alloc, left, entry, right);
    }
    joined_by(alloc, left, entry, right)
}

fn lean_left(alloc: Global, left: Tree, entry: Entry, right: Tree) -> Result<Tree, NoMemory>
    ensures { IfOk result (λ t. t ≡ left ++ entry ∷ right) }
{
    if let Some(fork) = &left.root {
        return raise_left(alloc, fork, entry, right);
    }
    joined_by(alloc, left, entry, right)
}

/// The left side's node, or the one to its right, comes to the top.
fn raise_left(alloc: Global, fork: &Fork, entry: Entry, right: Tree) -> Result<Tree, NoMemory>
    ensures { IfOk result (λ t. t ≡ entries_at fork.now ++ entry ∷ right) }
{
    if fork.right.height() > fork.left.height() {
        if let Some(inner) = &fork.right.root {
            return raise_inner_left(alloc, fork, inner, entry, right);
        }
    }
    let below = joined_by(alloc, fork.right.share()?, entry, right)?;
    joined_by(alloc, fork.left.share()?, fork.entry.share()?, below)
}

fn raise_inner_left(
    alloc: Global,
    fork: &Fork,
    inner: &Fork,
    entry: Entry,
    right: Tree,
) -> Result<Tree, NoMemory>
    ensures { IfOk result (λ t. t
        ≡ (fork.now.left ++ fork.now.entry ∷ entries_at inner.now) ++ entry ∷ right) }
{
    let lower = joined_by(
        alloc,
        fork.left.share()?,
        fork.entry.share()?,
        inner.left.share()?,
    )?;
    let upper = joined_by(alloc, inner.right.share()?, entry, right)?;
    joined_by(alloc, lower, inner.entry.share()?, upper)
}

fn lean_right(alloc: Global, left: Tree, entry: Entry, right: Tree) -> Result<Tree, NoMemory>
    ensures { IfOk result (λ t. t ≡ left ++ entry ∷ right) }
{
    if let Some(fork) = &right.root {
        return raise_right(alloc, left, entry, fork);
    }
    joined_by(alloc, left, entry, right)
}

/// The right side's node, or the one to its left, comes to the top.
fn raise_right(alloc: Global, left: Tree, entry: Entry, fork: &Fork) -> Result<Tree, NoMemory>
    ensures { IfOk result (λ t. t ≡ left ++ entry ∷ entries_at fork.now) }
{
    if fork.left.height() > fork.right.height() {
        if let Some(inner) = &fork.left.root {
            return raise_inner_right(alloc, left, entry, inner, fork);
        }
    }
    let below = joined_by(alloc, left, entry, fork.left.share()?)?;
    joined_by(alloc, below, fork.entry.share()?, fork.right.share()?)
}

fn raise_inner_right(
    alloc: Global,
    left: Tree,
    entry: Entry,
    inner: &Fork,
    fork: &Fork,
) -> Result<Tree, NoMemory>
    ensures { IfOk result (λ t. t
        ≡ left ++ entry ∷ (entries_at inner.now ++ fork.now.entry ∷ fork.now.right)) }
{
    let lower = joined_by(alloc, left, entry, inner.left.share()?)?;
    let upper = joined_by(
        alloc,
        inner.right.share()?,
        fork.entry.share()?,
        fork.right.share()?,
    )?;
    joined_by(alloc, lower, inner.entry.share()?, upper)
}
