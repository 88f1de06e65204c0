//! What a read shows of a view.

ghost use Rattle.std.specs.Prelude.{◌≡◌, IfOk};
ghost use Rattle.df_unit.specs.Drafts.{show, shown, visible_named};
ghost use Rattle.df_handles.specs.code.Views.{shown_in};

use crate::visible::is_named;
use df_frozen::Name;
use df_label::Label;
use df_memory::NoMemory;
use df_part::{Part, PartRef, Spot};
use df_unit::{Handle, PartRead};
use std::alloc::Global;

/// What a read shows of the visible parts of a name, in order.
pub fn shown(
    alloc: Global,
    input: &Label,
    name: &Name,
    handle: &Handle,
) -> Result<Vec<PartRead>, NoMemory>
    ensures { IfOk result (λ v. v.items ≡ shown (visible_named input.now name.now handle.now)) }
{
    shown_in(
        alloc,
        input,
        name,
        handle.named.as_slice(),
        handle.seen.as_slice(),
    )
}

fn shown_in(
    alloc: Global,
    input: &Label,
    name: &Name,
    named: &[Spot],
    seen: &[PartRef],
) -> Result<Vec<PartRead>, NoMemory>
    ensures { IfOk result (λ v. v.items ≡ shown_in input.now name.now named.now seen.now) }
{
    let mut shown = Vec::new(alloc);
    for part in seen {
        if is_named(input, named, name, part.part()) {
            shown.push(show(part.part())?)?;
        }
    }
    Ok(shown)
}

/// What a read shows of a part.
fn show(part: &Part) -> Result<PartRead, NoMemory>
    ensures { IfOk result (λ p. p ≡ show part.now) }
{
    let value = part.value.share()?;
    Ok(PartRead {
        label: part.label.copy()?,
        value,
        privileges: part.privileges.copy()?,
    })
}
