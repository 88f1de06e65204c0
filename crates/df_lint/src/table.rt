ghost use Rattle.std.specs.Prelude.{◌≡◌, ◌↔◌, ◌<◌, IfOk, IsTrue, false, length, true};
ghost use Rattle.df_family.specs.Family.{names};
ghost use Rattle.df_family.specs.May.{MayHold};
ghost use Rattle.df_family.specs.Never.{NeverHolds};
ghost use Rattle.df_lint.specs.LintText.{IsLintText};
ghost use Rattle.df_lint.specs.Tags.{AreTagsOf};

use crate::row::{Row, cell_of};
use crate::tags::place_of;
use crate::text::append_rows;
use df_label::{Privilege, TagSet};
use df_memory::NoMemory;
use df_start::RootStart;
use std::alloc::Global;
use std::marker::Model;

/// Which privileges the family of each root may hold. A contract sees it as the start: the label
/// and the privileges of each root.
#[derive(Drop)]
pub struct Lint {
    roots: Vec<RootStart>,
    tags: TagSet,
    rows: Vec<Row>,
}

impl Model for Lint {
    ghost use Rattle.std.specs.Prelude.{map};
    ghost use Rattle.df_start.specs.Begun.{begun};
    ghost use Rattle.df_lint.specs.code.Linted.{IsLinted};
    ghost use Rattle.df_rules.specs.Always.{Roots};

    ghost Value = { Roots };

    ghost view = { λ l. map begun l.roots.items };

    ghost invariant = { λ l. IsLinted l.roots.items l.tags l.rows.items };
}

impl Lint {
    ghost use Rattle.std.specs.Prelude.{map};
    ghost use Rattle.df_start.specs.Begun.{begun};
    ghost use Rattle.df_lint.specs.code.Linted.{IsLinted};

    pub(crate) fn new(roots: Vec<RootStart>, tags: TagSet, rows: Vec<Row>) -> Lint
        requires { IsLinted roots.items tags rows.items }
        ensures { result ≡ map begun roots.items }
    {
        Lint { roots, tags, rows }
    }

    /// The tags in the labels and privileges of the start.
    pub fn tags(&self) -> &TagSet
        ensures { AreTagsOf self.now result.now }
    {
        &self.tags
    }

    /// Whether a unit of the root's family may ever hold the privilege.
    pub fn may(&self, root: u32, p: &Privilege) -> bool
        requires root { root < length self.now }
        requires tag { names self.now p.now.tag ≡ true }
        ensures exact { IsTrue result ↔ MayHold self.now root p.now }
        ensures never { result ≡ false → NeverHolds self.now root p.now }
    {
        let place = place_of(self.tags.as_slice(), &p.tag);
        cell_of(&self.rows, root as usize, place).has(p.right)
    }

    /// The lines of each root in order and each privilege over the tags, ascending.
    pub(crate) fn text(&self, alloc: Global) -> Result<Vec<u8>, NoMemory>
        ensures { IfOk result (λ text. IsLintText self.now text.items) }
    {
        let mut text = Vec::new(alloc);
        append_rows(self.tags.as_slice(), self.rows.as_slice(), &mut text)?;
        Ok(text)
    }
}
