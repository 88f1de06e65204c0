//! Whether a unit has made an entry since.

ghost use Rattle.std.specs.Prelude.{◌≡◌};
ghost use Rattle.std.specs.List.{list_any};
ghost use Rattle.df_rules.specs.Follows.{is_of};

use df_unit::{Entry, UnitName};

/// Whether a unit made an entry.
fn is_of(unit: &UnitName, entry: &Entry) -> bool
    ensures { result ≡ is_of unit.now entry.now }
{
    match entry {
        Entry::Done { actor, .. } => actor.same(unit),
        Entry::Emitted(_) => false,
    }
}

/// Whether a unit made one of these entries.
pub(crate) fn has_entry(unit: &UnitName, entries: &[Entry]) -> bool
    ensures { result ≡ list_any (λ e. is_of unit.now e) entries.now }
{
    entries.iter().any(|entry| is_of(unit, entry))
}
