//! Parts that units add to events.

ghost use Rattle.std.specs.Prelude.{◌≡◌, ◌↔◌, IfOk, IsTrue};

use df_brain::Want;
use df_frozen::{Frozen, Name};
use df_label::Label;
use df_memory::NoMemory;
use df_unit::Call;

/// A part that a unit adds to an event.
#[derive(Drop)]
pub struct NewPart {
    pub label: Label,
    pub name: Name,
    pub value: Frozen,
}

impl NewPart {
    ghost use Rattle.df_brain.specs.Brain.{want_of};
    ghost use Rattle.ward_units.specs.Wishes.{adds};

    /// An equal part, which shares the value.
    pub fn copy(&self) -> Result<NewPart, NoMemory>
        ensures { IfOk result (λ part. part ≡ self.now) }
    {
        let value = self.value.share()?;
        Ok(NewPart {
            label: self.label.copy()?,
            name: self.name,
            value,
        })
    }

    /// Whether the two parts are one, values by their plain content.
    pub fn same(&self, other: &NewPart) -> bool
        ensures { IsTrue result ↔ (self.now ≡ other.now) }
    {
        self.name == other.name
            && self.label.same(&other.label)
            && self.value.plain_eq(&other.value)
    }

    /// To add the part to the draft or view of a handle.
    pub(crate) fn adding(&self, h: u32) -> Result<Want, NoMemory>
        ensures { IfOk result (λ w. want_of w ≡ adds h self.now) }
    {
        let NewPart { label, name, value } = self.copy()?;
        Ok(Want::Call(Call::AddPart {
            h,
            label,
            name,
            value,
        }))
    }
}
