ghost use Rattle.std.specs.Prelude.{◌≡◌, ◌++◌, ℕ, IfOk, List, false};
ghost use Rattle.std.specs.List.Sorted.{IsStrictlySortedBy};
ghost use Rattle.df_label.specs.TagSet.{tag_set_cmp};
ghost use Rattle.df_managed.specs.Contaminations.{EndsWith, has_set};
ghost use Rattle.df_part.specs.declared.part.Part.{Part};
ghost use Rattle.df_rules.specs.Choices.{gives};

use crate::TagSets;
use crate::chosen::all_chosen;
use df_filter::Filter;
use df_label::TagSet;
use df_memory::NoMemory;
use df_part::{Contents, Edit, PartRef};
use std::alloc::Global;

/// The contaminations of the instances to which a commit is handed, for a managed subscription with
/// this base, input integrity and filter. The contents are those after the edit. How many sets
/// there are isn't limited.
pub fn contaminations(
    alloc: Global,
    base: &TagSet,
    integrity: &TagSet,
    filter: &Filter,
    contents: &Contents,
    edit: &Edit,
) -> Result<TagSets, NoMemory>
    requires { EndsWith edit.now.1 contents.now }
    ensures given { IfOk result (λ sets.
        (old : List Part) → contents.now ≡ old ++ edit.now.1 → (t : List (List ℕ)) →
        has_set sets t ≡ gives filter.now integrity.now t base.now false old edit.now.1) }
    ensures ascending { IfOk result (IsStrictlySortedBy tag_set_cmp) }
{
    let old = old_parts(contents, edit);
    let sets = all_chosen(alloc, base, integrity, filter.clauses(), old, edit.added())?;
    Ok(TagSets::new(sets))
}

/// The parts that the edit left.
fn old_parts<'a>(contents: &'a Contents, edit: &Edit) -> &'a [PartRef]
    requires { EndsWith edit.now.1 contents.now }
    ensures { (old : List Part) → contents.now ≡ old ++ edit.now.1 → result.now ≡ old }
{
    let parts = contents.parts();
    &parts[..parts.len() - edit.added().len()]
}
