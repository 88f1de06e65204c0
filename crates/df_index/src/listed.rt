//! What an index is told of a filter.

ghost use Rattle.std.specs.Prelude.{◌≡◌, IfOk, Some, Option, List, ℕ, Bool, true};
ghost use Rattle.std.specs.List.{Contains};

use df_filter::Filter;
use df_frozen::Name;
use df_memory::NoMemory;

/// A filter with a first name, under which it is listed.
pub trait Listed: Drop {
    ghost use Rattle.df_part.specs.declared.part.Part.{Part};
    ghost use Rattle.df_index.specs.Listing.{names_of};

    // The first name, if there is one.
    ghost first_of: { Self → Option (List ℕ) };

    // Whether it matches a list of parts.
    ghost matches: { Self → List Part → Bool };

    fn first(&self) -> &Name
        ensures { first_of self.now ≡ Some result.now };

    fn copy(&self) -> Result<Self, NoMemory>
        ensures { IfOk result (λ filter. filter ≡ self.now) };

    // A list that it matches has a part of the first name.
    ghost has_first: { (filter : Self) (parts : List Part) (name : List ℕ)
        → first_of filter ≡ Some name → matches filter parts ≡ true
        → Contains (names_of parts) name };
}

impl Listed for Filter {
    ghost use Rattle.df_index.specs.Filter.{first_of, matches};
    ghost use Rattle.df_index.specs.FirstName.{has_first};

    ghost first_of = { first_of };

    ghost matches = { matches };

    ghost has_first = { has_first };

    fn first(&self) -> &Name {
        let clauses = self.clauses();
        &clauses[0].name
    }

    fn copy(&self) -> Result<Filter, NoMemory> {
        Filter::copy(self)
    }
}
