//! The names of parts, and the first name of a filter.

ghost use Rattle.std.specs.Prelude.{◌≡◌, ℕ, Bool, List, Some, IfOk};
ghost use Rattle.std.specs.List.{list_any};
ghost use Rattle.std.specs.List.Sorted.{IsStrictlySortedBy};
ghost use Rattle.df_frozen.specs.Name.{name_cmp};
ghost use Rattle.df_index.specs.Filter.{first_of};
ghost use Rattle.df_index.specs.Listing.{names_of};

use df_filter::Filter;
use df_frozen::Name;
use df_memory::NoMemory;
use df_part::PartRef;
use std::alloc::Global;

/// The name of the first clause.
pub(crate) fn first_name(filter: &Filter) -> &Name
    ensures { first_of filter.now ≡ Some result.now }
{
    let clauses = filter.clauses();
    &clauses[0].name
}

fn all_names(alloc: Global, parts: &[PartRef]) -> Result<Vec<Name>, NoMemory>
    ensures { IfOk result (λ v. v.items ≡ names_of parts.now) }
{
    let mut names = Vec::new(alloc);
    for part in parts {
        names.push(part.part().name)?;
    }
    Ok(names)
}

/// The names of the parts, ascending, each once.
pub(crate) fn names(alloc: Global, parts: &[PartRef]) -> Result<Vec<Name>, NoMemory>
    ensures ascending { IfOk result (λ v. IsStrictlySortedBy name_cmp v.items) }
    ensures same { IfOk result (λ v. (p : List ℕ → Bool)
        → list_any p v.items ≡ list_any p (names_of parts.now)) }
{
    let mut names = all_names(alloc, parts)?;
    names.sort_unstable();
    names.dedup();
    Ok(names)
}
