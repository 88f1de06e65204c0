//! What a clone copies of a handle.

ghost use Rattle.std.specs.Prelude.{◌≡◌, ◌++◌, length, IfOk, OnOk};
ghost use Rattle.df_unit.specs.Drafts.{clone, cloned, source, visible};
ghost use Rattle.df_handles.specs.code.Views.{visible_in};

use crate::parts::{new_part, raised};
use crate::visible::is_visible;
use df_label::Label;
use df_memory::NoMemory;
use df_part::{PartRef, Spot};
use df_unit::Handle;
use std::alloc::Global;

/// How many parts a clone copies.
pub fn source_count(input: &Label, handle: &Handle) -> Result<usize, NoMemory>
    ensures { IfOk result (λ n. n ≡ length (source input.now handle.now)) }
{
    let seen = visible_count(input, handle);
    let drafted = handle.drafted.as_slice().len();
    seen.checked_add(drafted).ok_or(NoMemory)
}

/// How many parts are visible.
fn visible_count(input: &Label, handle: &Handle) -> usize
    ensures { result ≡ length (visible input.now handle.now) }
{
    visible_count_in(input, handle.named.as_slice(), handle.seen.as_slice())
}

fn visible_count_in(input: &Label, named: &[Spot], seen: &[PartRef]) -> usize
    ensures { result ≡ length (visible_in input.now named.now seen.now) }
{
    let mut count = 0;
    for part in seen {
        if is_visible(input, named, part.part()) {
            count += 1;
        }
    }
    count
}

/// A copy of each visible part, and then of each drafted one.
pub fn cloned(
    alloc: Global,
    output: &Label,
    label: &Label,
    input: &Label,
    handle: &Handle,
) -> Result<Vec<PartRef>, NoMemory>
    ensures { IfOk result (λ v. v.items ≡ cloned output.now label.now
        (source input.now handle.now)) }
{
    let mut parts = Vec::new(alloc);
    clone_visible(output, label, input, handle, &mut parts)?;
    clone_drafted(output, label, handle.drafted.as_slice(), &mut parts)?;
    Ok(parts)
}

fn clone_visible(
    output: &Label,
    label: &Label,
    input: &Label,
    handle: &Handle,
    to: &mut Vec<PartRef>,
) -> Result<(), NoMemory>
    ensures { OnOk result (to.new.items ≡ to.old.items
        ++ cloned output.now label.now (visible input.now handle.now)) }
{
    clone_visible_in(
        output,
        label,
        input,
        handle.named.as_slice(),
        handle.seen.as_slice(),
        to,
    )
}

fn clone_visible_in(
    output: &Label,
    label: &Label,
    input: &Label,
    named: &[Spot],
    seen: &[PartRef],
    to: &mut Vec<PartRef>,
) -> Result<(), NoMemory>
    ensures { OnOk result (to.new.items ≡ to.old.items
        ++ cloned output.now label.now (visible_in input.now named.now seen.now)) }
{
    let alloc = *to.allocator();
    for part in seen {
        if is_visible(input, named, part.part()) {
            to.push(clone(alloc, output, label, part)?)?;
        }
    }
    Ok(())
}

fn clone_drafted(
    output: &Label,
    label: &Label,
    parts: &[PartRef],
    to: &mut Vec<PartRef>,
) -> Result<(), NoMemory>
    ensures { OnOk result (to.new.items ≡ to.old.items ++ cloned output.now label.now parts.now) }
{
    let alloc = *to.allocator();
    for part in parts {
        to.push(clone(alloc, output, label, part)?)?;
    }
    Ok(())
}

/// A part raised to the label and written without privileges.
fn clone(alloc: Global, output: &Label, label: &Label, part: &PartRef) -> Result<PartRef, NoMemory>
    ensures { IfOk result (λ p. p ≡ clone output.now label.now part.now) }
{
    let part = part.part();
    let label = raised(label, &part.label)?;
    new_part(alloc, output, &label, &part.name, &part.value)
}
