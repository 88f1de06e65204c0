ghost use Rattle.std.specs.Prelude.{◌≡◌, IfOk};

use df_label::TagSet;
use df_memory::NoMemory;
use std::alloc::Global;
use std::marker::Model;

/// Sets of tags, in order.
#[derive(Debug, Drop)]
pub struct TagSets {
    sets: Vec<TagSet>,
}

impl Model for TagSets {
    ghost use Rattle.std.specs.Prelude.{ℕ, List};

    ghost Value = { List (List (List ℕ)) };

    ghost view = { λ t. t.sets.items };
}

impl TagSets {
    /// Takes no memory.
    pub fn new(sets: Vec<TagSet>) -> TagSets
        ensures { result ≡ sets.items }
    {
        TagSets { sets }
    }

    pub fn as_slice(&self) -> &[TagSet]
        ensures { result.now ≡ self.now }
    {
        self.sets.as_slice()
    }

    pub fn copy(&self) -> Result<TagSets, NoMemory>
        ensures { IfOk result (λ sets. sets ≡ self.now) }
    {
        let alloc = *self.sets.allocator();
        Ok(TagSets {
            sets: copies(alloc, self.sets.as_slice())?,
        })
    }
}

fn copies(alloc: Global, sets: &[TagSet]) -> Result<Vec<TagSet>, NoMemory>
    ensures { IfOk result (λ v. v.items ≡ sets.now) }
{
    let mut copies = Vec::with_capacity(alloc, sets.len())?;
    for set in sets {
        copies.push(set.copy()?)?;
    }
    Ok(copies)
}
