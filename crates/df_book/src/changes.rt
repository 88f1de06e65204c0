//! Trees with one entry more, one fewer, or one with less left. The old tree stays as it was.

ghost use Rattle.std.specs.Prelude.{◌≡◌, ◌++◌, ◌∷◌, IfOk};
ghost use Rattle.std.specs.BTreeMap.{insert_entry};
ghost use Rattle.df_book.specs.code.Places.{place_cmp};
ghost use Rattle.df_book.specs.code.Trees.{IsByPlace, left_here, left_in, with_first};

use crate::balance::balanced;
use crate::entry::Entry;
use crate::place::Place;
use crate::tree::{Fork, Tree, joined_by};
use df_memory::NoMemory;
use std::alloc::Global;
use std::cmp::Ordering;

/// The node with other entries to its left.
fn with_left_side(alloc: Global, fork: &Fork, left: Tree) -> Result<Tree, NoMemory>
    ensures { IfOk result (λ t. t ≡ left ++ fork.now.entry ∷ fork.now.right) }
{
    balanced(alloc, left, fork.entry.share()?, fork.right.share()?)
}

/// The node with other entries to its right.
fn with_right_side(alloc: Global, fork: &Fork, right: Tree) -> Result<Tree, NoMemory>
    ensures { IfOk result (λ t. t ≡ fork.now.left ++ fork.now.entry ∷ right) }
{
    balanced(alloc, fork.left.share()?, fork.entry.share()?, right)
}

/// The node with something else at it.
fn with_entry(alloc: Global, fork: &Fork, entry: Entry) -> Result<Tree, NoMemory>
    ensures { IfOk result (λ t. t ≡ fork.now.left ++ entry ∷ fork.now.right) }
{
    balanced(alloc, fork.left.share()?, entry, fork.right.share()?)
}

/// The tree with one more entry. One at the same place goes.
pub(crate) fn put(alloc: Global, tree: &Tree, entry: Entry) -> Result<Tree, NoMemory>
    requires { IsByPlace tree.now }
    ensures { IfOk result (λ t. t ≡ insert_entry place_cmp tree.now entry.0 entry.1) }
{
    let Some(fork) = &tree.root else {
        return joined_by(alloc, Tree::new(), entry, Tree::new());
    };
    let fork: &Fork = fork;
    match entry.place().cmp(fork.entry.place()) {
        Ordering::Less => {
            let left = put(alloc, &fork.left, entry)?;
            with_left_side(alloc, fork, left)
        }
        Ordering::Equal => {
            let entry = fork.entry.with_rest(*entry.rest())?;
            with_entry(alloc, fork, entry)
        }
        Ordering::Greater => {
            let right = put(alloc, &fork.right, entry)?;
            with_right_side(alloc, fork, right)
        }
    }
}

/// The tree where so much is left of what rests at a place. Where nothing is left, the entry goes.
pub(crate) fn leave(alloc: Global, tree: &Tree, place: &Place, left: i64) -> Result<Tree, NoMemory>
    requires { IsByPlace tree.now }
    ensures { IfOk result (λ t. t ≡ left_in place.now left tree.now) }
{
    let Some(fork) = &tree.root else {
        return Ok(Tree::new());
    };
    let fork: &Fork = fork;
    match place.cmp(fork.entry.place()) {
        Ordering::Less => {
            let before = leave(alloc, &fork.left, place, left)?;
            with_left_side(alloc, fork, before)
        }
        Ordering::Equal => leave_here(alloc, fork, left),
        Ordering::Greater => {
            let after = leave(alloc, &fork.right, place, left)?;
            with_right_side(alloc, fork, after)
        }
    }
}

/// So much is left at the node itself.
fn leave_here(alloc: Global, fork: &Fork, left: i64) -> Result<Tree, NoMemory>
    ensures { IfOk result (λ t. t
        ≡ fork.now.left ++ left_here left fork.now.entry fork.now.right) }
{
    if left < 1 {
        return joined(alloc, &fork.left, &fork.right);
    }
    let entry = fork.entry.with_left(left)?;
    with_entry(alloc, fork, entry)
}

/// The entries of two trees.
fn joined(alloc: Global, left: &Tree, right: &Tree) -> Result<Tree, NoMemory>
    ensures { IfOk result (λ t. t ≡ left.now ++ right.now) }
{
    match without_first(alloc, right)? {
        None => left.share(),
        Some((first, others)) => balanced(alloc, left.share()?, first, others),
    }
}

/// The first entry, and the tree without it.
fn without_first(alloc: Global, tree: &Tree) -> Result<Option<(Entry, Tree)>, NoMemory>
    ensures { IfOk result (λ first. tree.now ≡ with_first first) }
{
    let Some(fork) = &tree.root else {
        return Ok(None);
    };
    match without_first(alloc, &fork.left)? {
        None => Ok(Some((fork.entry.share()?, fork.right.share()?))),
        Some((first, others)) => {
            let tree = with_left_side(alloc, fork, others)?;
            Ok(Some((first, tree)))
        }
    }
}
