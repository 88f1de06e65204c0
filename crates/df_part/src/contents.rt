ghost use Rattle.std.specs.Prelude.{◌≡◌, ◌↔◌, ◌<◌, [], ◌++◌, length, true, IsTrue, OnOk, IfOk};
ghost use Rattle.std.specs.List.{list_all};
ghost use Rattle.df_part.specs.Contents.{apply, is_deleted, spared};
ghost use Rattle.df_part.specs.Part.{cut, readable};

use crate::parts::share_all;
use crate::{Edit, Part, PartRef, Parts, ReadableParts, Spot, readable};
use df_label::Label;
use df_memory::NoMemory;
use std::alloc::Global;
use std::marker::Model;

/// The parts of an event, in the order in which they were added. They are shared by all that is
/// made of them.
#[derive(Drop)]
pub struct Contents {
    parts: Parts,
}

impl Model for Contents {
    ghost use Rattle.std.specs.Prelude.{List};
    ghost use Rattle.std.specs.Coded.{coded_list};
    ghost use Rattle.df_part.specs.declared.part.Part.{Part};
    ghost use Rattle.df_part.specs.contracts.part.Part as content;

    ghost Value = { List Part };

    ghost coded = { coded_list content.the_row.coded };

    ghost view = { λ c. c.parts };
}

impl Contents {
    /// No parts. Takes no memory.
    pub fn new(alloc: Global) -> Contents
        ensures { result ≡ [] }
    {
        Contents {
            parts: Parts::new(Vec::new(alloc)),
        }
    }

    /// The parts after an edit, built once: it deletes first, each part that has the name and the
    /// exact label of a deleted spot, and then adds, in order. An empty edit shares what there was,
    /// and an event without parts what the edit adds.
    pub fn applied(&self, edit: &Edit) -> Result<Contents, NoMemory>
        ensures { IfOk result (λ c. c ≡ apply edit.now self.now) }
    {
        if self.parts().is_empty() {
            return Ok(Contents {
                parts: edit.shared_added()?,
            });
        }
        if is_idle(edit) {
            return self.copy();
        }
        self.rebuilt(edit)
    }

    /// The parts after an edit, as a new list.
    #[inline(never)]
    fn rebuilt(&self, edit: &Edit) -> Result<Contents, NoMemory>
        ensures { IfOk result (λ c. c ≡ apply edit.now self.now) }
    {
        let parts = edited(self.parts.allocator(), self.parts(), edit)?;
        Ok(Contents {
            parts: Parts::shared(parts)?,
        })
    }

    pub fn parts(&self) -> &[PartRef]
        ensures { result.now ≡ self.now }
    {
        self.parts.as_slice()
    }

    /// The parts that may be read at a label, in order.
    pub fn readable_by<'a>(&'a self, at: &'a Label) -> ReadableParts<'a>
        ensures { result ≡ cut at.now self.now }
    {
        ReadableParts::new(at, self.parts.as_slice())
    }

    /// The parts that may be read at a label, as a list. Where all may be read, it is the one that
    /// there is, shared.
    pub fn seen_at(&self, at: &Label) -> Result<Parts, NoMemory>
        ensures { IfOk result (λ p. p ≡ cut at.now self.now) }
    {
        if are_readable(at, self.parts()) {
            return self.parts.copy();
        }
        Parts::shared(seen(self.parts.allocator(), at, self)?)
    }

    /// The same parts, shared.
    pub fn copy(&self) -> Result<Contents, NoMemory>
        ensures { IfOk result (λ c. c ≡ self.now) }
    {
        Ok(Contents {
            parts: self.parts.copy()?,
        })
    }
}

/// Whether one of the spots is the part's.
pub fn is_deleted(part: &Part, deleted: &[Spot]) -> bool
    ensures { result ≡ is_deleted part.now deleted.now }
{
    deleted
        .iter()
        .any(|spot| part.is_at(&spot.name, &spot.label))
}

/// Whether an edit neither deletes nor adds.
fn is_idle(edit: &Edit) -> bool
    ensures { IsTrue result ↔ (edit.now ≡ ([], [])) }
{
    edit.deleted().is_empty() && edit.added().is_empty()
}

/// Whether all of the parts may be read at a label.
fn are_readable(at: &Label, parts: &[PartRef]) -> bool
    ensures { result ≡ list_all (readable at.now) parts.now }
{
    parts.iter().all(|part| readable(at, part.part()))
}

/// A list of its own, of the parts that may be read at a label.
fn seen(alloc: Global, at: &Label, contents: &Contents) -> Result<Vec<PartRef>, NoMemory>
    ensures { IfOk result (λ v. v.items ≡ cut at.now contents.now) }
{
    let mut seen = Vec::new(alloc);
    for part in contents.readable_by(at) {
        seen.push(part.share()?)?;
    }
    Ok(seen)
}

/// What an edit makes of parts, as a list of its own.
fn edited(alloc: Global, parts: &[PartRef], edit: &Edit) -> Result<Vec<PartRef>, NoMemory>
    ensures { IfOk result (λ v. v.items ≡ apply edit.now parts.now) }
{
    let count = parts.len().saturating_add(edit.added().len());
    let mut edited = Vec::with_capacity(alloc, count)?;
    put_spared(parts, edit.deleted(), &mut edited)?;
    share_all(edit.added(), &mut edited)?;
    Ok(edited)
}

/// Appends a share of each part that a deletion leaves.
fn put_spared(parts: &[PartRef], deleted: &[Spot], to: &mut Vec<PartRef>) -> Result<(), NoMemory>
    ensures { OnOk result (to.new.items ≡ to.old.items ++ spared deleted.now parts.now) }
{
    // Spots mostly stand in the order of their parts: the next one is tried before all.
    let mut next = 0;
    for part in parts {
        if is_deleted_by(part.part(), deleted, next) {
            next += 1;
        } else if !is_deleted(part.part(), deleted) {
            to.push(part.share()?)?;
        }
    }
    Ok(())
}

/// Whether the spot of this number is the part's.
fn is_deleted_by(part: &Part, deleted: &[Spot], k: usize) -> bool
    ensures deleted { IsTrue result → is_deleted part.now deleted.now ≡ true }
    ensures within { IsTrue result → k < length deleted.now }
{
    match deleted.get(k) {
        Some(spot) => part.is_at(&spot.name, &spot.label),
        None => false,
    }
}
