//! Deleting parts at a handle, and attaching privileges to drafted ones.

ghost use Rattle.std.specs.Prelude.{◌≡◌, IfOk, OnOk, OnErr, not, map};
ghost use Rattle.std.specs.List.{filter};
ghost use Rattle.df_part.specs.Contents.{is_at};
ghost use Rattle.df_unit.specs.Drafts.{attach, attached_in, deleted_in, has_at, spot, visible};
ghost use Rattle.df_handles.specs.code.Views.{has_seen};

use crate::visible::is_visible;
use df_frozen::Name;
use df_label::{Label, Privilege};
use df_memory::NoMemory;
use df_part::{PartRef, Spot};
use df_unit::{Drafts, Handle};
use std::alloc::Global;

/// Takes the drafted parts of a spot out. Where there are none, names the spot for deletion.
pub fn delete_in(alloc: Global, handle: &mut Handle, spot: Spot) -> Result<(), NoMemory>
    ensures ok { OnOk result (handle.new ≡ deleted_in spot handle.old) }
    ensures unchanged { OnErr result (handle.new ≡ handle.old) }
{
    if !has_drafted(handle.drafted.as_slice(), &spot.name, &spot.label) {
        return handle.named.push(spot);
    }
    match undrafted(alloc, handle.drafted.as_slice(), &spot.name, &spot.label) {
        Ok(left) => {
            handle.drafted = left;
            Ok(())
        }
        Err(refused) => Err(refused),
    }
}

/// Attaches a privilege to the drafted parts of a name and label.
pub fn attach_in(
    alloc: Global,
    handle: &mut Handle,
    name: &Name,
    label: &Label,
    p: &Privilege,
) -> Result<(), NoMemory>
    ensures ok { OnOk result (handle.new ≡ attached_in (spot name.now label.now) p.now handle.old) }
    ensures unchanged { OnErr result (handle.new ≡ handle.old) }
{
    match attached(alloc, handle.drafted.as_slice(), name, label, p) {
        Ok(drafted) => {
            handle.drafted = Drafts::new(drafted);
            Ok(())
        }
        Err(refused) => Err(refused),
    }
}

/// Whether a part of this name and label is drafted.
pub fn has_drafted(parts: &[PartRef], name: &Name, label: &Label) -> bool
    ensures { result ≡ has_at parts.now (spot name.now label.now) }
{
    parts.iter().any(|part| part.part().is_at(name, label))
}

/// Whether a visible part has this name and label.
#[tactic(auto, using(crate::proofs::Views::seen_at))]
pub fn has_visible(input: &Label, handle: &Handle, name: &Name, label: &Label) -> bool
    ensures { result ≡ has_at (visible input.now handle.now) (spot name.now label.now) }
{
    has_next_or_other(
        input,
        handle.named.as_slice(),
        handle.seen.as_slice(),
        name,
        label,
    )
}

// Parts are mostly deleted in their order: the one behind those named is tried before all.
fn has_next_or_other(
    input: &Label,
    named: &[Spot],
    seen: &[PartRef],
    name: &Name,
    label: &Label,
) -> bool
    ensures { result ≡ has_seen input.now named.now (spot name.now label.now) seen.now }
{
    match seen.get(named.len()) {
        Some(next) if next.part().is_at(name, label) => is_visible(input, named, next.part()),
        _ => has_seen(input, named, seen, name, label),
    }
}

fn has_seen(input: &Label, named: &[Spot], seen: &[PartRef], name: &Name, label: &Label) -> bool
    ensures { result ≡ has_seen input.now named.now (spot name.now label.now) seen.now }
{
    for part in seen {
        if part.part().is_at(name, label) {
            return is_visible(input, named, part.part());
        }
    }
    false
}

/// The drafted parts without those of a name and label.
fn undrafted(
    alloc: Global,
    parts: &[PartRef],
    name: &Name,
    label: &Label,
) -> Result<Drafts, NoMemory>
    ensures { IfOk result (λ d. d ≡ filter
        (λ part. not (is_at part (spot name.now label.now))) parts.now) }
{
    let mut left = Vec::new(alloc);
    for part in parts {
        if !part.part().is_at(name, label) {
            left.push(part.share()?)?;
        }
    }
    Ok(Drafts::new(left))
}

/// The drafted parts with a privilege on each of those of a name and label.
fn attached(
    alloc: Global,
    parts: &[PartRef],
    name: &Name,
    label: &Label,
    p: &Privilege,
) -> Result<Vec<PartRef>, NoMemory>
    ensures { IfOk result (λ v. v.items ≡ map (attach (spot name.now label.now) p.now) parts.now) }
{
    let mut attached = Vec::with_capacity(alloc, parts.len())?;
    for part in parts {
        attached.push(attach(alloc, part, name, label, p)?)?;
    }
    Ok(attached)
}

fn attach(
    alloc: Global,
    part: &PartRef,
    name: &Name,
    label: &Label,
    p: &Privilege,
) -> Result<PartRef, NoMemory>
    ensures { IfOk result (λ q. q ≡ attach (spot name.now label.now) p.now part.now) }
{
    if !part.part().is_at(name, label) {
        return part.share();
    }
    let mut copy = part.part().copy()?;
    copy.privileges.add(p)?;
    PartRef::new(alloc, copy)
}
