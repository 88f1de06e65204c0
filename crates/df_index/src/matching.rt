//! Whether a filter matches what may be read of an event.

ghost use Rattle.std.specs.Prelude.{◌≡◌, ◌&&◌};
ghost use Rattle.std.specs.List.{list_any};
ghost use Rattle.df_part.specs.Part.{cut, readable};
ghost use Rattle.df_index.specs.Filter.{matches, serves};

use df_filter::{Clause, Filter};
use df_label::Label;
use df_part::{Contents, PartRef, readable};

// Whether the part may be read at the label, and serves the clause.
fn serves_at(at: &Label, clause: &Clause, part: &PartRef) -> bool
    ensures { result ≡ (readable at.now part.now && serves clause.now part.now) }
{
    let part = part.part();
    clause.holds(&part.name, part.value.value()) && readable(at, part)
}

fn any_serves_at(at: &Label, clause: &Clause, parts: &[PartRef]) -> bool
    ensures { result ≡ list_any (λ p. readable at.now p && serves clause.now p) parts.now }
{
    parts.iter().any(|part| serves_at(at, clause, part))
}

fn is_served(at: &Label, clause: &Clause, parts: &[PartRef]) -> bool
    ensures { result ≡ list_any (λ part. serves clause.now part) (cut at.now parts.now) }
{
    any_serves_at(at, clause, parts)
}

/// Whether each clause holds of some part that may be read at the label.
pub(crate) fn matches(at: &Label, filter: &Filter, contents: &Contents) -> bool
    ensures { result ≡ matches filter.now (cut at.now contents.now) }
{
    let parts = contents.parts();
    filter
        .clauses()
        .iter()
        .all(|clause| is_served(at, clause, parts))
}
