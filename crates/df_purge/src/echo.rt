ghost use Rattle.std.specs.Prelude.{◌≡◌, IfOk, Some, option_copied};
ghost use Rattle.df_part.specs.Part.{cut};
ghost use Rattle.df_rules.specs.Commits.{commit_of, cut_spots};
ghost use Rattle.df_rules.specs.Purge.{echo};

use df_label::Label;
use df_memory::NoMemory;
use df_part::{Edit, PartRef, Spot, readable};
use df_unit::{Commit, Effect, Entry};
use std::alloc::Global;

/// What a label shows of an entry's commit, if it has one and anything is shown.
pub(crate) fn echo_of(
    alloc: Global,
    label: &Label,
    entry: &Entry,
) -> Result<Option<Commit>, NoMemory>
    ensures { IfOk result (λ shown. shown ≡ echo label.now (commit_of entry.now)) }
{
    match commit_of(entry) {
        Some(commit) => shown_of(alloc, label, commit),
        None => Ok(None),
    }
}

fn commit_of(entry: &Entry) -> Option<&Commit>
    ensures { option_copied result ≡ commit_of entry.now }
{
    match entry {
        Entry::Done {
            effect: Effect::Commit(commit),
            ..
        } => Some(commit),
        Entry::Done { .. } => None,
        Entry::Emitted(commit) => Some(commit),
    }
}

/// What a label shows of a commit, if it is anything.
pub fn shown_of(alloc: Global, label: &Label, commit: &Commit) -> Result<Option<Commit>, NoMemory>
    ensures { IfOk result (λ shown. shown ≡ echo label.now (Some commit.now)) }
{
    let deleted = shown_spots(alloc, label, commit.edit.deleted())?;
    let added = shown_parts(alloc, label, commit.edit.added())?;
    if deleted.is_empty() && added.is_empty() {
        return Ok(None);
    }
    let event = commit.event.copy()?;
    let edit = Edit::new(deleted, added);
    Ok(Some(Commit { event, edit }))
}

fn shown_spots(alloc: Global, label: &Label, spots: &[Spot]) -> Result<Vec<Spot>, NoMemory>
    ensures { IfOk result (λ shown. shown.items ≡ cut_spots label.now spots.now) }
{
    let mut shown = Vec::new(alloc);
    for spot in spots {
        if spot.label.flows_to(label) {
            shown.push(spot.copy()?)?;
        }
    }
    Ok(shown)
}

fn shown_parts(alloc: Global, label: &Label, parts: &[PartRef]) -> Result<Vec<PartRef>, NoMemory>
    ensures { IfOk result (λ shown. shown.items ≡ cut label.now parts.now) }
{
    let mut shown = Vec::new(alloc);
    for part in parts {
        if readable(label, part.part()) {
            shown.push(part.share()?)?;
        }
    }
    Ok(shown)
}
