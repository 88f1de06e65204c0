//! Labels and parts as a unit writes and copies them.

ghost use Rattle.std.specs.Prelude.{◌≡◌, IfOk, IsTrue, OnErr};
ghost use Rattle.df_unit.specs.Drafts.{new_part, raised, relabel, relabelled};

use df_frozen::{Frozen, Name};
use df_label::{Label, Privileges};
use df_memory::NoMemory;
use df_part::{Part, PartRef, Parts, Spot};
use df_unit::Drafts;
use std::alloc::Global;

/// A label with the confidentiality of the output label added, and cut to its integrity.
#[inline(always)]
pub fn raised(output: &Label, label: &Label) -> Result<Label, NoMemory>
    ensures { IfOk result (λ l. l ≡ raised output.now label.now) }
{
    if output.s.is_empty() && label.i.is_empty() {
        return label.copy();
    }
    joined(output, label)
}

#[inline(never)]
fn joined(output: &Label, label: &Label) -> Result<Label, NoMemory>
    ensures { IfOk result (λ l. l ≡ raised output.now label.now) }
{
    label.join(output)
}

/// A part as a unit with this output label drafts it, without privileges.
#[inline(always)]
pub fn new_part(
    alloc: Global,
    output: &Label,
    label: &Label,
    name: &Name,
    value: &Frozen,
) -> Result<PartRef, NoMemory>
    ensures { IfOk result (λ p. p ≡ new_part (raised output.now label.now) name.now value.now) }
{
    let label = raised(output, label)?;
    let value = value.share()?;
    let part = Part {
        name: *name,
        label,
        value,
        privileges: Privileges::new(alloc),
    };
    PartRef::new(alloc, part)
}

#[inline(never)]
fn relabel(output: &Label, part: &Part) -> Result<Part, NoMemory>
    ensures { IfOk result (λ p. p ≡ relabel output.now part.now) }
{
    let label = raised(output, &part.label)?;
    let value = part.value.share()?;
    Ok(Part {
        name: part.name,
        label,
        value,
        privileges: part.privileges.copy()?,
    })
}

/// Whether a label is one that the output label changes nothing of.
fn is_raised(output: &Label, label: &Label) -> bool
    ensures { IsTrue result → raised output.now label.now ≡ label.now }
{
    let _ascending = label.s.as_slice();
    output.flows_to(label)
}

/// A part labelled again at the output label. One that this changes nothing of is shared.
fn relabelled_one(alloc: Global, output: &Label, part: &PartRef) -> Result<PartRef, NoMemory>
    ensures { IfOk result (λ p. p ≡ relabel output.now part.now) }
{
    if is_raised(output, &part.part().label) {
        return part.share();
    }
    PartRef::new(alloc, relabel(output, part.part())?)
}

/// The parts of a draft, each labelled again at the output label. One that this changes nothing of is
/// taken out, and left there where memory is wanting.
pub fn taken_out(alloc: Global, output: &Label, drafts: &mut Drafts) -> Result<Parts, NoMemory>
    ensures ok { IfOk result (λ p. p ≡ relabelled output.now drafts.old) }
    ensures unchanged { OnErr result (drafts.new ≡ drafts.old) }
{
    if let [part] = drafts.as_slice()
        && is_raised(output, &part.part().label)
        && let Some(part) = drafts.take_one()
    {
        return Ok(Parts::one(alloc, part));
    }
    relabelled(alloc, output, drafts.as_slice())
}

/// The parts, each labelled again at the output label.
#[inline(never)]
pub fn relabelled(alloc: Global, output: &Label, parts: &[PartRef]) -> Result<Parts, NoMemory>
    ensures { IfOk result (λ p. p ≡ relabelled output.now parts.now) }
{
    if let [part] = parts {
        return Ok(Parts::one(alloc, relabelled_one(alloc, output, part)?));
    }
    Parts::shared(all_relabelled(alloc, output, parts)?)
}

#[inline(never)]
fn all_relabelled(
    alloc: Global,
    output: &Label,
    parts: &[PartRef],
) -> Result<Vec<PartRef>, NoMemory>
    ensures { IfOk result (λ v. v.items ≡ relabelled output.now parts.now) }
{
    let mut relabelled = Vec::with_capacity(alloc, parts.len())?;
    for part in parts {
        relabelled.push(relabelled_one(alloc, output, part)?)?;
    }
    Ok(relabelled)
}

/// The same spots once more.
pub fn copies_of(alloc: Global, spots: &[Spot]) -> Result<Vec<Spot>, NoMemory>
    ensures { IfOk result (λ v. v.items ≡ spots.now) }
{
    let mut copies = Vec::with_capacity(alloc, spots.len())?;
    for spot in spots {
        copies.push(spot.copy()?)?;
    }
    Ok(copies)
}
