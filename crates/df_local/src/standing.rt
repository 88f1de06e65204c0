//! At which labels a unit reads and writes, and what it took in and set aside on its way.

ghost use Rattle.std.specs.Prelude.{◌≡◌, [], IfOk};
ghost use Rattle.df_label.specs.Label.{join};

use df_label::{Label, TagSet};
use df_memory::NoMemory;
use std::alloc::Global;

/// The label at which a unit reads, and that of all that it may have read.
#[derive(Drop)]
pub struct Reading {
    pub input: Label,
    pub contamination: Label,
}

/// The label at which a unit writes, and the tags that it set aside.
#[derive(Drop)]
pub struct Writing {
    pub output: Label,
    pub dropped: TagSet,
    pub endorsed: TagSet,
}

/// The contamination of a unit that has this one, once it reads at this input label.
fn contaminated(contamination: &Label, input: &Label) -> Result<Label, NoMemory>
    ensures { IfOk result (λ c. c ≡ join contamination.now input.now) }
{
    contamination.join(input)
}

impl Reading {
    /// As a unit begins that reads at this label.
    pub fn at(label: &Label) -> Result<Reading, NoMemory>
        ensures input { IfOk result (λ r. r.input ≡ label.now) }
        ensures contamination { IfOk result (λ r. r.contamination ≡ label.now) }
    {
        let input = label.copy()?;
        let contamination = label.copy()?;
        Ok(Reading {
            input,
            contamination,
        })
    }

    /// Of a unit that had this contamination, and reads at this label from now on.
    pub fn behind(contamination: &Label, input: Label) -> Result<Reading, NoMemory>
        ensures input { IfOk result (λ r. r.input ≡ input) }
        ensures contamination { IfOk result (λ r. r.contamination ≡ join contamination.now input) }
    {
        let contamination = contaminated(contamination, &input)?;
        Ok(Reading {
            input,
            contamination,
        })
    }

    pub fn copy(&self) -> Result<Reading, NoMemory>
        ensures { IfOk result (λ r. r ≡ self.now) }
    {
        let input = self.input.copy()?;
        let contamination = self.contamination.copy()?;
        Ok(Reading {
            input,
            contamination,
        })
    }
}

impl Writing {
    /// As a unit begins that writes at this label. Takes no memory.
    pub fn at(alloc: Global, label: Label) -> Writing
        ensures output { result.output ≡ label }
        ensures dropped { result.dropped ≡ [] }
        ensures endorsed { result.endorsed ≡ [] }
    {
        Writing {
            output: label,
            dropped: TagSet::new(alloc),
            endorsed: TagSet::new(alloc),
        }
    }

    /// At this label, with these tags set aside.
    pub fn behind(output: Label, dropped: &TagSet, endorsed: &TagSet) -> Result<Writing, NoMemory>
        ensures output { IfOk result (λ w. w.output ≡ output) }
        ensures dropped { IfOk result (λ w. w.dropped ≡ dropped.now) }
        ensures endorsed { IfOk result (λ w. w.endorsed ≡ endorsed.now) }
    {
        let dropped = dropped.copy()?;
        let endorsed = endorsed.copy()?;
        Ok(Writing {
            output,
            dropped,
            endorsed,
        })
    }

    pub fn copy(&self) -> Result<Writing, NoMemory>
        ensures { IfOk result (λ w. w ≡ self.now) }
    {
        let output = self.output.copy()?;
        let dropped = self.dropped.copy()?;
        let endorsed = self.endorsed.copy()?;
        Ok(Writing {
            output,
            dropped,
            endorsed,
        })
    }
}
