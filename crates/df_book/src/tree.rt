//! The resting orders in order of their places. Trees share their nodes, which never change.

ghost use Rattle.std.specs.Prelude.{◌≡◌, [], ◌++◌, ◌∷◌, IfOk};

use crate::entry::Entry;
use df_memory::NoMemory;
use std::alloc::Global;
use std::marker::Model;
use std::sync::Arc;

/// A search tree whose nodes are shared, which a contract sees as its entries from left to right.
#[cycle(tree)]
#[derive(Drop)]
pub(crate) struct Tree {
    pub(crate) root: Option<Arc<Fork>>,
}

/// An entry between those of two trees.
#[cycle(tree)]
#[derive(Drop)]
pub(crate) struct Fork {
    pub(crate) left: Tree,
    pub(crate) entry: Entry,
    pub(crate) right: Tree,
    /// Keeps the tree in balance. Nothing else rests on it.
    height: u32,
}

impl Model for Tree {
    ghost use Rattle.std.specs.Prelude.{List, length};
    ghost use Rattle.df_book.specs.declared.place.Place.{Place};
    ghost use Rattle.df_book.specs.declared.place.Rest.{Rest};

    ghost Value = { List (Place × Rest) };

    ghost use Rattle.df_book.specs.code.Nodes.{entries_of};

    ghost view = { λ t. entries_of t.root };

    ghost size = { length };

    ghost use Rattle.std.proofs.Common.{arith, length-append};

    ghost size_decreases = { λ t h. Prim.grind (arith, length-append) };
}

impl Tree {
    /// Takes no memory.
    pub(crate) fn new() -> Tree
        ensures { result ≡ [] }
    {
        Tree { root: None }
    }

    /// The same tree once more. Takes the same time however much is in it.
    pub(crate) fn share(&self) -> Result<Tree, NoMemory>
        ensures { IfOk result (λ t. t ≡ self.now) }
    {
        Ok(Tree {
            root: match &self.root {
                None => None,
                Some(fork) => Some(Arc::try_clone(fork)?),
            },
        })
    }

    pub(crate) fn height(&self) -> u32 {
        match &self.root {
            None => 0,
            Some(fork) => fork.height,
        }
    }
}

/// The entries of two trees, with one between them. No node moves.
pub(crate) fn joined_by(
    alloc: Global,
    left: Tree,
    entry: Entry,
    right: Tree,
) -> Result<Tree, NoMemory>
    ensures { IfOk result (λ t. t ≡ left ++ entry ∷ right) }
{
    let height = left.height().max(right.height()).saturating_add(1);
    let fork = Fork {
        left,
        entry,
        right,
        height,
    };
    Ok(Tree {
        root: Some(Arc::new(alloc, fork)?),
    })
}
