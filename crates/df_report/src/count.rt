//! Parts that are counted by their names.

ghost use Rattle.std.specs.Prelude.{◌≡◌};
ghost use Rattle.df_report.specs.Summing.{added_by, counted, one_more};

use df_part::PartRef;
use df_unit::{Effect, Entry};

/// The parts that an entry's commit adds, if it has one.
pub(crate) fn added_by(entry: &Entry) -> &[PartRef]
    ensures { result.now ≡ added_by entry.now }
{
    match entry {
        Entry::Emitted(commit) => commit.edit.added(),
        Entry::Done { effect, .. } => match effect {
            Effect::Commit(commit) => commit.edit.added(),
            _ => &[],
        },
    }
}

/// Adds one, or stays at the greatest number.
pub(crate) fn one_more(count: u64, more: bool) -> u64
    ensures { result ≡ one_more count more }
{
    if more { count.saturating_add(1) } else { count }
}

pub(crate) fn counted(count: u64, name: &str, part: &PartRef) -> u64
    ensures { result ≡ counted name.now count part.now }
{
    one_more(count, part.part().name.as_str() == name)
}
