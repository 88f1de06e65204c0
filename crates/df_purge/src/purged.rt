ghost use Rattle.std.specs.Prelude.{◌≡◌, ◌++◌, IfOk, OnOk, reverse};
ghost use Rattle.df_machine.specs.Journal.{firsts};
ghost use Rattle.df_rules.specs.Legal.{Legal};
ghost use Rattle.df_rules.specs.Purge.{Keeps, left_of, purge};
ghost use Rattle.df_rules.specs.Start.{rows};
ghost use Rattle.df_purge.specs.Purged.{EmitsByPrivileges};
ghost use Rattle.df_purge.specs.code.Left.{is_noted_within};

use crate::echo::echo_of;
use crate::noted::is_noted_within;
use df_label::Label;
use df_machine::Tables;
use df_memory::NoMemory;
use df_replay::{copy_entry, repeat};
use df_start::Start;
use df_unit::Entry;
use std::alloc::Global;

/// What stays of a legal journal, the oldest entry first, at a label: the entries of units that are
/// within the label, and what the label shows of the other commits, as emitted entries.
pub fn purge(
    alloc: Global,
    start: &Start,
    label: &Label,
    journal: &[Entry],
) -> Result<Vec<Entry>, NoMemory>
    requires { Legal rows (firsts start.now) (reverse journal.now) }
    ensures exact { IfOk result (λ left.
        reverse left.items ≡ purge rows (firsts start.now) label.now (reverse journal.now)) }
    ensures legal { IfOk result (λ left. Legal rows (firsts start.now) (reverse left.items)) }
    ensures keeps { IfOk result (λ left.
        Keeps rows (firsts start.now) label.now (reverse journal.now) (reverse left.items)) }
    ensures exercised { OnOk result
        (EmitsByPrivileges (firsts start.now) label.now (reverse journal.now)) }
{
    let mut tables = Tables::begin(alloc, start)?;
    let mut left = Vec::new(alloc);
    for kept in journal {
        let contamination = repeat(&mut tables, kept)?;
        push_left(label, kept, &contamination, &mut left)?;
    }
    Ok(left)
}

/// Appends what stays of an entry before which its actor has this contamination.
fn push_left(
    label: &Label,
    kept: &Entry,
    contamination: &Option<Label>,
    to: &mut Vec<Entry>,
) -> Result<(), NoMemory>
    ensures { OnOk result (to.new.items ≡ to.old.items ++ left_of label.now
        (is_noted_within label.now contamination.now) kept.now) }
{
    if is_noted_within(label, contamination) {
        to.push(copy_entry(kept)?)?;
        return Ok(());
    }
    if let Some(commit) = echo_of(*to.allocator(), label, kept)? {
        to.push(Entry::Emitted(commit))?;
    }
    Ok(())
}
