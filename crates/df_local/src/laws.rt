//! What holds of each unit that a caller can have.

ghost use Rattle.df_unit.specs.KeptFact.{IsKept};

use crate::Local;

/// A unit's contamination takes in all that it may read. Each of its confidentiality tags is in the
/// unit's output label or was dropped, and each integrity tag of the output label is in the
/// contamination or was endorsed.
pub fn tags_are_accounted_for(unit: &Local)
    ensures { IsKept unit.now.own }
{
    let _reading = &unit.reading;
}
