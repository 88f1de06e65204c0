ghost use Rattle.std.specs.Prelude.{◌≡◌, ◌↔◌, IsTrue, IfOk};

use df_frozen::{Frozen, Name};
use df_label::{Label, Privileges};
use df_memory::NoMemory;

/// A part of an event: a name, a label, a value, and the privileges that its readers get.
#[derive(Drop)]
pub struct Part {
    pub name: Name,
    pub label: Label,
    pub value: Frozen,
    pub privileges: Privileges,
}

impl Part {
    /// Whether the two parts are one, values by their plain content.
    pub fn same(&self, other: &Part) -> bool
        ensures { IsTrue result ↔ (self.now ≡ other.now) }
    {
        self.name == other.name
            && self.label.same(&other.label)
            && self.value.plain_eq(&other.value)
            && self.privileges.same(&other.privileges)
    }

    /// An equal part, which shares the value.
    pub fn copy(&self) -> Result<Part, NoMemory>
        ensures { IfOk result (λ p. p ≡ self.now) }
    {
        let value = self.value.share()?;
        Ok(Part {
            name: self.name,
            label: self.label.copy()?,
            value,
            privileges: self.privileges.copy()?,
        })
    }
}

ghost use Rattle.df_part.specs.Contents.{is_at};
ghost use Rattle.df_part.specs.Part.{readable};

impl Part {
    /// Whether the part has this name and exactly this label.
    #[inline(always)]
    pub fn is_at(&self, name: &Name, label: &Label) -> bool
        ensures { result ≡ is_at self.now (record { name = name.now; label = label.now }) }
    {
        self.name == *name && self.label == *label
    }
}

/// Whether a part may be read at a label.
pub fn readable(at: &Label, part: &Part) -> bool
    ensures { result ≡ readable at.now part.now }
{
    part.label.flows_to(at)
}
