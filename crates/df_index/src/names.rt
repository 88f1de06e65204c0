//! The names of parts.

ghost use Rattle.std.specs.Prelude.{◌≡◌, ℕ, List, OnOk};
ghost use Rattle.std.specs.List.{Contains};
ghost use Rattle.std.specs.List.Sorted.{IsStrictlySortedBy};
ghost use Rattle.df_frozen.specs.Name.{name_cmp};
ghost use Rattle.df_index.specs.Listing.{names_of};

use df_frozen::Name;
use df_memory::NoMemory;
use df_part::PartRef;

fn put_names(parts: &[PartRef], names: &mut Vec<Name>) -> Result<(), NoMemory>
    ensures { OnOk result (names.new.items ≡ names_of parts.now) }
{
    names.clear();
    for part in parts {
        names.push(part.part().name)?;
    }
    Ok(())
}

/// Puts down the names of the parts, ascending, each once.
pub(crate) fn list_names(parts: &[PartRef], names: &mut Vec<Name>) -> Result<(), NoMemory>
    ensures ascending { OnOk result (IsStrictlySortedBy name_cmp names.new.items) }
    ensures among { OnOk result ((n : List ℕ)
        → Contains names.new.items n → Contains (names_of parts.now) n) }
    ensures all { OnOk result ((n : List ℕ)
        → Contains (names_of parts.now) n → Contains names.new.items n) }
{
    put_names(parts, names)?;
    names.sort_unstable();
    names.dedup();
    Ok(())
}
