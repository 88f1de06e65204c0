ghost use Rattle.std.specs.Prelude.{◌≡◌};

use crate::EventName;
use df_memory::NoMemory;
use df_part::{PartRef, Parts, Spot};
use std::marker::Model;
use std::mem;

/// Spots that a release will delete, in order.
#[derive(Drop)]
pub struct Spots {
    spots: Vec<Spot>,
}

impl Model for Spots {
    ghost use Rattle.std.specs.Prelude.{List};
    ghost use Rattle.std.specs.Coded.{coded_list};
    ghost use Rattle.df_part.specs.declared.edit.Spot.{Spot};
    ghost use Rattle.df_part.specs.contracts.edit.Spot as content;

    ghost Value = { List Spot };

    ghost coded = { coded_list content.the_row.coded };

    ghost view = { λ s. s.spots.items };
}

impl Spots {
    ghost use Rattle.std.specs.Prelude.{◌++◌, ◌∷◌, [], OnOk, OnErr};

    /// Takes no memory.
    pub fn new(spots: Vec<Spot>) -> Spots
        ensures { result ≡ spots.items }
    {
        Spots { spots }
    }

    pub fn as_slice(&self) -> &[Spot]
        ensures { result.now ≡ self.now }
    {
        self.spots.as_slice()
    }

    pub fn push(&mut self, spot: Spot) -> Result<(), NoMemory>
        ensures ok { OnOk result (self.new ≡ self.old ++ spot ∷ []) }
        ensures unchanged { OnErr result (self.new ≡ self.old) }
    {
        self.spots.push(spot)?;
        Ok(())
    }

    /// Takes all out, and keeps the room that they had.
    pub fn clear(&mut self)
        ensures { self.new ≡ [] }
    {
        self.spots.clear();
    }

    /// Takes all out, with the room that they had. Takes no memory.
    pub fn take(&mut self) -> Vec<Spot>
        ensures spots { result.items ≡ self.old }
        ensures none { self.new ≡ [] }
    {
        let alloc = *self.spots.allocator();
        mem::replace(&mut self.spots, Vec::new(alloc))
    }
}

/// Parts that a publish or a release will add, in order.
#[derive(Drop)]
pub struct Drafts {
    parts: Vec<PartRef>,
}

impl Model for Drafts {
    ghost use Rattle.std.specs.Prelude.{List};
    ghost use Rattle.std.specs.Coded.{coded_list};
    ghost use Rattle.df_part.specs.declared.part.Part.{Part};
    ghost use Rattle.df_part.specs.contracts.part.Part as content;

    ghost Value = { List Part };

    ghost coded = { coded_list content.the_row.coded };

    ghost view = { λ d. d.parts.items };
}

impl Drafts {
    ghost use Rattle.std.specs.Prelude.{◌++◌, ◌∷◌, [], IfNone, IfSome, OnOk, OnErr};

    /// Takes no memory.
    pub fn new(parts: Vec<PartRef>) -> Drafts
        ensures { result ≡ parts.items }
    {
        Drafts { parts }
    }

    pub fn as_slice(&self) -> &[PartRef]
        ensures { result.now ≡ self.now }
    {
        self.parts.as_slice()
    }

    pub fn push(&mut self, part: PartRef) -> Result<(), NoMemory>
        ensures ok { OnOk result (self.new ≡ self.old ++ part ∷ []) }
        ensures unchanged { OnErr result (self.new ≡ self.old) }
    {
        self.parts.push(part)?;
        Ok(())
    }

    /// Takes all out, and keeps the room that they had.
    pub fn clear(&mut self)
        ensures { self.new ≡ [] }
    {
        self.parts.clear();
    }

    /// Takes the part out, where there is no other, and keeps the room that it had.
    pub fn take_one(&mut self) -> Option<PartRef>
        ensures one { IfSome result (λ part. (self.old ≡ part ∷ []) × (self.new ≡ [])) }
        ensures same { IfNone result (self.new ≡ self.old) }
    {
        if self.parts.len() != 1 {
            return None;
        }
        self.parts.pop()
    }
}

/// An open handle: a draft of an event, or a view of one that was handed to the unit.
#[derive(Drop)]
pub struct Handle {
    pub is_view: bool,
    pub event: EventName,
    /// The parts that were handed; a draft has none.
    pub seen: Parts,
    /// The deletions that a release will make.
    pub named: Spots,
    /// The parts that a publish or a release will add.
    pub drafted: Drafts,
}
