ghost use Rattle.std.specs.Prelude.{◌≡◌, ◌↔◌, IsTrue, IfOk};

use crate::{PartRef, Parts};
use df_frozen::Name;
use df_label::Label;
use df_memory::NoMemory;
use std::alloc::Global;
use std::marker::Model;

/// The name and the exact label of parts that are to be deleted.
#[derive(Drop)]
pub struct Spot {
    pub name: Name,
    pub label: Label,
}

impl Spot {
    /// Whether the two have the same name and the same label.
    pub fn same(&self, other: &Spot) -> bool
        ensures { IsTrue result ↔ (self.now ≡ other.now) }
    {
        self.name == other.name && self.label.same(&other.label)
    }

    pub fn copy(&self) -> Result<Spot, NoMemory>
        ensures { IfOk result (λ s. s ≡ self.now) }
    {
        Ok(Spot {
            name: self.name,
            label: self.label.copy()?,
        })
    }
}

/// What one commit does to an event: the deleted spots and the added parts, each in order.
#[derive(Drop)]
pub struct Edit {
    deleted: Vec<Spot>,
    added: Parts,
}

impl Model for Edit {
    ghost use Rattle.std.specs.Prelude.{List};
    ghost use Rattle.std.specs.Coded.{coded×, coded_list};
    ghost use Rattle.df_part.specs.declared.edit.Spot.{Spot};
    ghost use Rattle.df_part.specs.declared.part.Part.{Part};
    ghost use Rattle.df_part.specs.contracts.edit.Spot as spot;
    ghost use Rattle.df_part.specs.contracts.part.Part as content;

    ghost Value = { List Spot × List Part };

    ghost coded = { coded× (coded_list spot.the_row.coded) (coded_list content.the_row.coded) };

    ghost view = { λ e. (e.deleted.items, e.added) };
}

impl Edit {
    /// Takes no memory.
    pub fn new(deleted: Vec<Spot>, added: Vec<PartRef>) -> Edit
        ensures { result ≡ (deleted.items, added.items) }
    {
        Edit::adding(deleted, Parts::new(added))
    }

    /// Takes no memory.
    pub fn adding(deleted: Vec<Spot>, added: Parts) -> Edit
        ensures { result ≡ (deleted.items, added) }
    {
        Edit { deleted, added }
    }

    /// Whether the two delete and add the same, in the same order.
    pub fn same(&self, other: &Edit) -> bool
        ensures { IsTrue result ↔ (self.now ≡ other.now) }
    {
        same_spots(self.deleted.as_slice(), other.deleted.as_slice())
            && self.added.same(&other.added)
    }

    /// An equal edit, which shares the added parts.
    pub fn copy(&self) -> Result<Edit, NoMemory>
        ensures { IfOk result (λ e. e ≡ self.now) }
    {
        let deleted = copies(*self.deleted.allocator(), self.deleted.as_slice())?;
        let added = self.added.copy()?;
        Ok(Edit { deleted, added })
    }

    pub fn deleted(&self) -> &[Spot]
        ensures { result.now ≡ self.now.0 }
    {
        self.deleted.as_slice()
    }

    pub fn added(&self) -> &[PartRef]
        ensures { result.now ≡ self.now.1 }
    {
        self.added.as_slice()
    }

    /// The added parts, as a list that copies share.
    pub(crate) fn shared_added(&self) -> Result<Parts, NoMemory>
        ensures { IfOk result (λ p. p ≡ self.now.1) }
    {
        self.added.copy_shared()
    }
}

fn copies(alloc: Global, spots: &[Spot]) -> Result<Vec<Spot>, NoMemory>
    ensures { IfOk result (λ v. v.items ≡ spots.now) }
{
    let mut copies = Vec::new(alloc);
    for spot in spots {
        copies.push(spot.copy()?)?;
    }
    Ok(copies)
}

fn same_spots(a: &[Spot], b: &[Spot]) -> bool
    ensures { IsTrue result ↔ (a.now ≡ b.now) }
{
    if a.len() != b.len() {
        return false;
    }
    for i in 0..a.len() {
        let is_same = a[i].same(&b[i]);
        if !is_same {
            return false;
        }
    }
    true
}
