ghost use Rattle.std.specs.Prelude.{◌≡◌, ◌↔◌, IsTrue, IfOk};

use crate::part::Part;
use df_memory::NoMemory;
use std::alloc::Global;
use std::marker::Model;
use std::sync::Arc;

/// A part that is shared, which a contract sees as the part.
#[derive(Drop)]
pub struct PartRef {
    part: Arc<Part>,
}

impl Model for PartRef {
    ghost use Rattle.df_part.specs.declared.part.Part.{Part};
    ghost use Rattle.df_part.specs.contracts.part.Part as content;
    ghost use Rattle.std.specs.Arc.{arc_value};

    ghost Value = { Part };

    ghost coded = { content.the_row.coded };

    ghost view = { λ p. arc_value p.part };
}

impl PartRef {
    /// Lets the part go where there is no memory.
    pub fn new(alloc: Global, part: Part) -> Result<PartRef, NoMemory>
        ensures { IfOk result (λ p. p ≡ part) }
    {
        Ok(PartRef {
            part: Arc::new(alloc, part)?,
        })
    }

    /// The same part once more; it isn't copied.
    pub fn share(&self) -> Result<PartRef, NoMemory>
        ensures { IfOk result (λ p. p ≡ self.now) }
    {
        Ok(PartRef {
            part: Arc::try_clone(&self.part)?,
        })
    }

    /// Whether the two are seen as one part.
    pub fn same(&self, other: &PartRef) -> bool
        ensures { IsTrue result ↔ (self.now ≡ other.now) }
    {
        self.part.same(&other.part)
    }

    pub fn part(&self) -> &Part
        ensures { result.now ≡ self.now }
    {
        &self.part
    }
}
