ghost use Rattle.std.specs.Prelude.{◌≡◌, ◌++◌, List, IfOk, OnOk};
ghost use Rattle.df_machine.specs.Journal.{firsts};
ghost use Rattle.df_rules.specs.Purge.{purge};
ghost use Rattle.df_rules.specs.Start.{rows};
ghost use Rattle.df_start.specs.declared.start.RootStart.{RootStart};
ghost use Rattle.df_replay.specs.Noted.{AreRight, noted, past_of};
ghost use Rattle.df_purge.specs.code.Left.{is_noted_within, left_noted};

use crate::echo::echo_of;
use df_label::Label;
use df_memory::NoMemory;
use df_replay::copy_entry;
use df_unit::{Entry, Noted};
use std::alloc::Global;

/// What stays at a label of a journal with the right notes, the oldest entry first, with the notes
/// that are right there. The notes tell who is within the label, so no machine goes over it.
pub fn purge_noted(alloc: Global, label: &Label, journal: &[Noted]) -> Result<Vec<Noted>, NoMemory>
    ensures { (roots : List RootStart) → AreRight roots journal.now → IfOk result (λ left.
        left.items ≡ noted roots (purge rows (firsts roots) label.now (past_of journal.now))) }
{
    let mut left = Vec::new(alloc);
    for kept in journal {
        push_left(label, kept, &mut left)?;
    }
    Ok(left)
}

/// Appends what stays at a label of an entry with its right note: the entry, where the note flows to
/// the label, else what the label shows of its commit, as an emitted entry.
pub fn push_left(label: &Label, kept: &Noted, to: &mut Vec<Noted>) -> Result<(), NoMemory>
    ensures { OnOk result (to.new.items ≡ to.old.items ++ left_noted label.now kept.now) }
{
    if is_noted_within(label, &kept.contamination) {
        to.push(copy_noted(kept)?)?;
        return Ok(());
    }
    if let Some(commit) = echo_of(*to.allocator(), label, &kept.entry)? {
        to.push(Noted {
            entry: Entry::Emitted(commit),
            contamination: None,
        })?;
    }
    Ok(())
}

/// Whether a contamination is noted that flows to the label.
pub(crate) fn is_noted_within(label: &Label, contamination: &Option<Label>) -> bool
    ensures { result ≡ is_noted_within label.now contamination.now }
{
    match contamination {
        Some(contamination) => contamination.flows_to(label),
        None => false,
    }
}

/// An equal entry with an equal note.
fn copy_noted(noted: &Noted) -> Result<Noted, NoMemory>
    ensures { IfOk result (λ n. n ≡ noted.now) }
{
    let contamination = match &noted.contamination {
        Some(label) => Some(label.copy()?),
        None => None,
    };
    let entry = copy_entry(&noted.entry)?;
    Ok(Noted {
        entry,
        contamination,
    })
}
