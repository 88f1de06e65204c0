//! Tags, labels, privileges, units and events have a spelling, as their types give it.
ghost use Rattle.std.specs.Prelude.{◌≡◌, ◌<◌, ◌^◌, IfSome, length, option_copied, true};
ghost use Rattle.df_frozen.specs.Name.{is_name};
ghost use Rattle.df_journal_text.specs.Fits.{ArePrivileges, IsEvent, IsUnit};
ghost use Rattle.df_value_text.specs.Fits.{AreNumbers, AreTags, IsLabel, IsPrivilege, IsTag, IsTagSet};

use crate::spelled::{Spelled, each_is_spelled};
use df_frozen::Name;
use df_label::{Label, Privilege, Privileges, Tag, TagSet};
use df_unit::{EventName, UnitName};

/// A number has 32 bits.
pub(crate) fn number_is_short(number: u32)
    ensures { number < 2 ^ 32 }
{
    let _ = number;
}

impl Spelled for u32 {
    ghost fits = { λ number. number < 2 ^ 32 };

    fn is_spelled(&self) {
        number_is_short(*self);
    }
}

/// Numbers, of which there are some, have the spelling of a tag.
#[tactic(auto, using(crate::proofs::Walks::tag_of_all))]
fn numbers_are_tag(numbers: &[u32])
    requires { 0 < length numbers.now }
    ensures { IsTag numbers.now }
{
    each_is_spelled(numbers);
}

/// A tag has a spelling.
impl Spelled for Tag {
    ghost fits = { λ tag. IsTag tag };

    fn is_spelled(&self) {
        numbers_are_tag(self.as_slice());
    }
}

/// A set of tags has a spelling.
#[tactic(auto, using(crate::proofs::Walks::tags_of_all))]
pub(crate) fn tag_set_is_spelled(tags: &TagSet)
    ensures { IsTagSet tags.now }
{
    each_is_spelled(tags.as_slice());
}

/// A label has a spelling.
pub(crate) fn label_is_spelled(label: &Label)
    ensures { IsLabel label.now }
{
    tag_set_is_spelled(&label.s);
    tag_set_is_spelled(&label.i);
}

/// A contamination has a spelling, where there is one.
pub fn contamination_is_spelled(contamination: Option<&Label>)
    ensures { IfSome (option_copied contamination.entry) IsLabel }
{
    if let Some(label) = contamination {
        label_is_spelled(label);
    }
}

/// A privilege has a spelling.
impl Spelled for Privilege {
    ghost fits = { λ privilege. IsPrivilege privilege };

    fn is_spelled(&self) {
        self.tag.is_spelled();
    }
}

/// Privileges have a spelling.
pub(crate) fn privileges_are_spelled(privileges: &Privileges)
    ensures { ArePrivileges privileges.now }
{
    each_is_spelled(privileges.as_slice());
}

/// A name is one.
pub(crate) fn name_is_spelled(name: &Name)
    ensures { is_name name.now ≡ true }
{
    let _ = name.as_bytes();
}

/// A unit has a spelling.
pub(crate) fn unit_is_spelled(unit: &UnitName)
    ensures { IsUnit unit.now }
{
    match unit {
        UnitName::Root(path) => numbers_are_tag(path.as_slice()),
        UnitName::Managed { owner, sub, s } => {
            numbers_are_tag(owner.as_slice());
            number_is_short(*sub);
            tag_set_is_spelled(s);
        }
    }
}

/// An event has a spelling.
pub(crate) fn event_is_spelled(event: &EventName)
    ensures { IsEvent event.now }
{
    unit_is_spelled(&event.unit);
    number_is_short(event.number);
}
