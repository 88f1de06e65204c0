//! What the choices come to, clause by clause.

ghost use Rattle.std.specs.Prelude.{◌≡◌, ◌++◌, ◌∷◌, [], IfOk, List, OnOk, false, map};
ghost use Rattle.std.specs.List.Sorted.{IsStrictlySortedBy};
ghost use Rattle.df_filter.specs.declared.clause.Clause.{Clause};
ghost use Rattle.df_label.specs.TagSet.{tag_set_cmp, union};
ghost use Rattle.df_managed.specs.Contaminations.{has_set};
ghost use Rattle.df_managed.specs.code.Chosen.{HaveSame, Tags, comes_to, joins};
ghost use Rattle.df_rules.specs.Choices.{gives};

use crate::secrets::{put_in_order, secrets};
use df_filter::Clause;
use df_label::TagSet;
use df_memory::NoMemory;
use df_part::PartRef;
use std::alloc::Global;

/// What the choices for some clauses come to, each set once: those of old parts alone, and those
/// with an added part among them.
#[derive(Drop)]
struct Chosen {
    stale: Vec<TagSet>,
    fresh: Vec<TagSet>,
}

/// What the choices for all clauses come to, where an added part is among them.
pub(crate) fn all_chosen(
    alloc: Global,
    base: &TagSet,
    integrity: &TagSet,
    clauses: &[Clause],
    old: &[PartRef],
    added: &[PartRef],
) -> Result<Vec<TagSet>, NoMemory>
    ensures given { IfOk result (λ v. (t : Tags) → has_set v.items t
        ≡ gives clauses.now integrity.now t base.now false old.now added.now) }
    ensures ascending { IfOk result (λ v. IsStrictlySortedBy tag_set_cmp v.items) }
{
    let mut chosen = none_chosen(alloc, base)?;
    for clause in clauses {
        chosen = chosen_with(alloc, &chosen, integrity, clause, old, added)?;
    }
    Ok(chosen.fresh)
}

fn none_chosen(alloc: Global, base: &TagSet) -> Result<Chosen, NoMemory>
    ensures stale { IfOk result (λ c. c.stale.items ≡ base.now ∷ []) }
    ensures fresh { IfOk result (λ c. c.fresh.items ≡ []) }
{
    let mut stale = Vec::new(alloc);
    stale.push(base.copy()?)?;
    Ok(Chosen {
        stale,
        fresh: Vec::new(alloc),
    })
}

/// What the choices come to with a part for one clause more.
fn chosen_with(
    alloc: Global,
    chosen: &Chosen,
    integrity: &TagSet,
    clause: &Clause,
    old: &[PartRef],
    added: &[PartRef],
) -> Result<Chosen, NoMemory>
    ensures goes_on { IfOk result (λ c. (rest : List Clause) → (t : Tags) →
        comes_to rest integrity.now t old.now added.now c.stale.items c.fresh.items
        ≡ comes_to (clause.now ∷ rest) integrity.now t old.now added.now
        chosen.now.stale.items chosen.now.fresh.items) }
    ensures ascending { IfOk result (λ c. IsStrictlySortedBy tag_set_cmp c.fresh.items) }
{
    let kept = secrets(alloc, integrity, clause, old)?;
    let new = secrets(alloc, integrity, clause, added)?;
    let stale = all_joined(alloc, chosen.stale.as_slice(), kept.as_slice())?;
    let fresh = fresh_joined(alloc, chosen, kept.as_slice(), new.as_slice())?;
    Ok(Chosen { stale, fresh })
}

/// Each of the first sets with each of the second.
fn all_joined(alloc: Global, sets: &[TagSet], secrets: &[TagSet]) -> Result<Vec<TagSet>, NoMemory>
    ensures { IfOk result (λ v. HaveSame v.items (joins sets.now secrets.now)) }
{
    let mut joined = Vec::new(alloc);
    join_each(sets, secrets, &mut joined)?;
    put_in_order(&mut joined);
    Ok(joined)
}

/// Old choices with an added part, and choices with an added part with any part.
fn fresh_joined(
    alloc: Global,
    chosen: &Chosen,
    kept: &[TagSet],
    new: &[TagSet],
) -> Result<Vec<TagSet>, NoMemory>
    ensures ascending { IfOk result (λ v. IsStrictlySortedBy tag_set_cmp v.items) }
    ensures same { IfOk result (λ v. HaveSame v.items (joins chosen.now.stale.items new.now
        ++ joins chosen.now.fresh.items kept.now ++ joins chosen.now.fresh.items new.now)) }
{
    let mut joined = Vec::new(alloc);
    join_each(chosen.stale.as_slice(), new, &mut joined)?;
    join_each(chosen.fresh.as_slice(), kept, &mut joined)?;
    join_each(chosen.fresh.as_slice(), new, &mut joined)?;
    put_in_order(&mut joined);
    Ok(joined)
}

fn join_each(sets: &[TagSet], secrets: &[TagSet], to: &mut Vec<TagSet>) -> Result<(), NoMemory>
    ensures { OnOk result (to.new.items ≡ to.old.items ++ joins sets.now secrets.now) }
{
    for set in sets {
        join_one(set, secrets, to)?;
    }
    Ok(())
}

fn join_one(set: &TagSet, secrets: &[TagSet], to: &mut Vec<TagSet>) -> Result<(), NoMemory>
    ensures { OnOk result (to.new.items ≡ to.old.items ++ map (union set.now) secrets.now) }
{
    for secret in secrets {
        to.push(set.union(secret)?)?;
    }
    Ok(())
}
