//! How many instances acted.

ghost use Rattle.std.specs.Prelude.{◌≡◌, ◌+◌, ◌<◌, ◌≤◌, drop, length, slice_index_or, option_copied};
ghost use Rattle.std.specs.List.{list_any};
ghost use Rattle.df_unit.specs.declared.entry.Entry.{Entry};
ghost use Rattle.df_report.specs.Summing.{with_instances, is_last, acts, instance_of};

use crate::count::one_more;
use df_unit::{Entry, Reply, UnitName};

/// Each instance is counted at its last entry.
pub(crate) fn instances(entries: &[Entry]) -> u64
    ensures { result ≡ with_instances 0 entries.now }
{
    let mut count = 0;
    for i in 0..entries.len() {
        count = one_more(count, is_last(entries, i));
    }
    count
}

fn is_last(entries: &[Entry], i: usize) -> bool
    requires { i < length entries.now }
    ensures { (d : Entry) → result
        ≡ is_last (slice_index_or entries.now i d) (drop (i + 1) entries.now) }
{
    match instance_of(&entries[i]) {
        Some(name) => !acts_from(name, entries, i + 1),
        None => false,
    }
}

fn acts_from(name: &UnitName, entries: &[Entry], from: usize) -> bool
    requires { from ≤ length entries.now }
    ensures { result ≡ list_any (acts name.now) (drop from entries.now) }
{
    for i in from..entries.len() {
        if acts(name, &entries[i]) {
            return true;
        }
    }
    false
}

fn acts(name: &UnitName, entry: &Entry) -> bool
    ensures { result ≡ acts name.now entry.now }
{
    match instance_of(entry) {
        Some(other) => name.same(other),
        None => false,
    }
}

/// The instance that acts in an entry, if the entry isn't that of a unit that doesn't exist.
fn instance_of(entry: &Entry) -> Option<&UnitName>
    ensures { option_copied result ≡ instance_of entry.now }
{
    let Entry::Done { actor, reply, .. } = entry else {
        return None;
    };
    match (actor, reply) {
        (_, Reply::NoSuchUnit) => None,
        (UnitName::Managed { .. }, _) => Some(actor),
        _ => None,
    }
}
