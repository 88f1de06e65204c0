//! Which parts of a view are visible.

ghost use Rattle.std.specs.Prelude.{◌≡◌};
ghost use Rattle.df_handles.specs.Visible.{is_named, is_visible};

use df_frozen::Name;
use df_label::Label;
use df_part::{Part, Spot, is_deleted, readable};

/// Whether a part of a view is readable and isn't named for deletion.
pub fn is_visible(input: &Label, named: &[Spot], part: &Part) -> bool
    ensures { result ≡ is_visible input.now named.now part.now }
{
    readable(input, part) && !is_deleted(part, named)
}

/// Whether a part of a view is visible and has the name.
pub fn is_named(input: &Label, named: &[Spot], name: &Name, part: &Part) -> bool
    ensures { result ≡ is_named input.now named.now name.now part.now }
{
    part.name == *name && is_visible(input, named, part)
}
