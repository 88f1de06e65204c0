//! Making tags.

ghost use Rattle.std.specs.Prelude.{◌≡◌, ◌++◌, ◌∷◌, [], IfOk, OnErr, OnOk};
ghost use Rattle.df_unit.specs.Held.{all_over};
ghost use Rattle.df_unit.specs.Rows.{changed, next_tag, path_of, reply};
ghost use Rattle.df_unit.specs.declared.call.Call.{Call};
ghost use Rattle.df_unit.specs.declared.entry.Effect.{Effect};
ghost use Rattle.df_local.specs.Locally.{Answers, with_own};

use crate::Local;
use crate::limits::MOST_NUMBERS;
use crate::take::is_accepted;
use df_label::{Privilege, Right, Tag};
use df_memory::NoMemory;
use df_unit::{Path, Reply, UnitName};

impl Local {
    /// Makes the unit's next tag. The unit holds all four privileges over it.
    pub fn create_tag(&mut self) -> Result<Reply, NoMemory>
        ensures ok { IfOk result (λ r. Answers Call.CreateTag r self.old self.new) }
        ensures unchanged { OnErr result (self.new ≡ self.old) }
    {
        let reply = match self.tag_reply() {
            Ok(reply) => reply,
            Err(refused) => return Err(refused),
        };
        if !is_accepted(&reply) {
            return Ok(reply);
        }
        match self.put_tag() {
            Ok(()) => Ok(reply),
            Err(refused) => Err(refused),
        }
    }

    pub(crate) fn tag_reply(&self) -> Result<Reply, NoMemory>
        ensures { IfOk result (λ r. r ≡ reply self.now.unit self.now.own [] Call.CreateTag) }
    {
        if self.is_instance() {
            return Ok(Reply::NotInManaged);
        }
        if self.tags >= MOST_NUMBERS {
            return Ok(Reply::Exhausted);
        }
        let tag = self.next_tag()?;
        Ok(Reply::Tag(tag))
    }

    pub(crate) fn put_tag(&mut self) -> Result<(), NoMemory>
        ensures ok { OnOk result (self.new ≡ with_own self.old
            (changed self.old.unit self.old.own Call.CreateTag Effect.Nothing)) }
        ensures unchanged { OnErr result (self.new ≡ self.old) }
    {
        if self.tags >= MOST_NUMBERS {
            return Err(NoMemory);
        }
        let all = match self.all_over_next() {
            Ok(all) => all,
            Err(refused) => return Err(refused),
        };
        match self.held.grant_all(all) {
            Ok(()) => {
                self.tags += 1;
                Ok(())
            }
            Err(refused) => Err(refused),
        }
    }

    fn next_tag(&self) -> Result<Tag, NoMemory>
        ensures { IfOk result (λ t. t ≡ next_tag self.now.unit self.now.own) }
    {
        Tag::new(self.alloc, path_of(&self.name).as_slice(), self.tags)
    }

    /// All four privileges over the next tag.
    fn all_over_next(&self) -> Result<Vec<Privilege>, NoMemory>
        ensures { IfOk result (λ v. v.items ≡ all_over (next_tag self.now.unit self.now.own)) }
    {
        let tag = self.next_tag()?;
        let mut all = Vec::with_capacity(self.alloc, 4)?;
        put_over(&tag, Right::Plus, &mut all)?;
        put_over(&tag, Right::Minus, &mut all)?;
        put_over(&tag, Right::PlusAuth, &mut all)?;
        put_over(&tag, Right::MinusAuth, &mut all)?;
        Ok(all)
    }
}

/// The path of a plain unit, or of an instance's owner.
fn path_of(unit: &UnitName) -> &Path
    ensures { result.now ≡ path_of unit.now }
{
    match unit {
        UnitName::Root(path) => path,
        UnitName::Managed { owner, .. } => owner,
    }
}

/// Puts a privilege over a tag last.
fn put_over(tag: &Tag, right: Right, to: &mut Vec<Privilege>) -> Result<(), NoMemory>
    ensures { OnOk result (to.new.items
        ≡ to.old.items ++ record { tag = tag.now; right = right } ∷ []) }
{
    let tag = tag.copy()?;
    to.push(Privilege { tag, right })?;
    Ok(())
}
