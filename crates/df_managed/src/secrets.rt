//! The confidentiality of the parts that serve a clause, and lists of sets without repeats.

ghost use Rattle.std.specs.Prelude.{◌≡◌, ◌++◌, IfOk, OnOk};
ghost use Rattle.std.specs.List.Sorted.{IsStrictlySortedBy};
ghost use Rattle.df_label.specs.TagSet.{tag_set_cmp};
ghost use Rattle.df_managed.specs.code.Chosen.{HaveSame, secrets_of};
ghost use Rattle.df_rules.specs.Choices.{fits};

use df_filter::Clause;
use df_label::TagSet;
use df_memory::NoMemory;
use df_part::{Part, PartRef};
use std::alloc::Global;

/// Puts the sets in order, each once.
pub(crate) fn put_in_order(sets: &mut Vec<TagSet>)
    ensures ascending { IsStrictlySortedBy tag_set_cmp sets.new.items }
    ensures same { HaveSame sets.new.items sets.old.items }
{
    sets.sort_unstable();
    sets.dedup();
}

/// The confidentiality of each part that may be chosen for the clause, each set once.
pub(crate) fn secrets(
    alloc: Global,
    integrity: &TagSet,
    clause: &Clause,
    parts: &[PartRef],
) -> Result<Vec<TagSet>, NoMemory>
    ensures { IfOk result (λ v.
        HaveSame v.items (secrets_of integrity.now clause.now parts.now)) }
{
    let mut sets = Vec::new(alloc);
    put_secrets(integrity, clause, parts, &mut sets)?;
    put_in_order(&mut sets);
    Ok(sets)
}

fn put_secrets(
    integrity: &TagSet,
    clause: &Clause,
    parts: &[PartRef],
    to: &mut Vec<TagSet>,
) -> Result<(), NoMemory>
    ensures { OnOk result (to.new.items
        ≡ to.old.items ++ secrets_of integrity.now clause.now parts.now) }
{
    for part in parts {
        let part = part.part();
        if fits(integrity, clause, part) {
            to.push(part.label.s.copy()?)?;
        }
    }
    Ok(())
}

/// Whether the part may be chosen for the clause.
fn fits(integrity: &TagSet, clause: &Clause, part: &Part) -> bool
    ensures { result ≡ fits integrity.now clause.now part.now }
{
    clause.holds(&part.name, part.value.value()) && integrity.is_subset(&part.label.i)
}
