//! The instances that the choices of a commit give.

ghost use Rattle.std.specs.Prelude.{◌≡◌, ◌++◌, ◌<◌, ◌&&◌, ℕ, List, Some, IfOk, length, slice_get};
ghost use Rattle.std.specs.List.{All};
ghost use Rattle.std.specs.List.Sorted.{IsStrictlySortedBy};
ghost use Rattle.std.specs.Ordering.{nat_cmp};
ghost use Rattle.df_label.specs.TagSet.{tag_set_cmp};
ghost use Rattle.df_part.specs.declared.part.Part.{Part};
ghost use Rattle.df_managed.specs.Contaminations.{EndsWith, has_set};
ghost use Rattle.df_instances.specs.Chosen.{gives_at, has_instance, instance_cmp};
ghost use Rattle.df_instances.specs.Marks.{has_place};

use crate::instances::put_instances;
use crate::{Instance, ManagedSubscription};
use df_managed::{TagSets, contaminations};
use df_memory::NoMemory;
use df_part::{Contents, Edit};
use std::alloc::Global;

/// The contaminations that the choices of the commit give for a subscription.
fn sets(
    alloc: Global,
    subscription: &ManagedSubscription,
    contents: &Contents,
    edit: &Edit,
) -> Result<TagSets, NoMemory>
    requires { EndsWith edit.now.1 contents.now }
    ensures given { IfOk result (λ sets. (old : List Part) → contents.now ≡ old ++ edit.now.1
        → (t : List (List ℕ)) → has_set sets t
        ≡ gives_at (Some subscription.now) t old edit.now.1) }
    ensures ascending { IfOk result (IsStrictlySortedBy tag_set_cmp) }
{
    let fixed = &subscription.fixed;
    contaminations(
        alloc,
        &fixed.base,
        &fixed.input_integrity,
        &fixed.filter,
        contents,
        edit,
    )
}

/// The instances that the choices of the commit give, of the subscriptions at these places.
pub(crate) fn chosen_at(
    alloc: Global,
    subscriptions: &[ManagedSubscription],
    places: &[usize],
    contents: &Contents,
    edit: &Edit,
) -> Result<Vec<Instance>, NoMemory>
    requires within { All (λ k. k < length subscriptions.now) places.now }
    requires up { IsStrictlySortedBy nat_cmp places.now }
    requires added { EndsWith edit.now.1 contents.now }
    ensures given { IfOk result (λ v. (old : List Part) → contents.now ≡ old ++ edit.now.1
        → (k : ℕ) (t : List (List ℕ)) → has_instance v.items k t ≡ (has_place places.now k
        && gives_at (slice_get subscriptions.now k) t old edit.now.1)) }
    ensures ascending { IfOk result (λ v. IsStrictlySortedBy instance_cmp v.items) }
{
    let mut found = Vec::new(alloc);
    for place in places {
        let sets = sets(alloc, &subscriptions[*place], contents, edit)?;
        put_instances(*place, sets.as_slice(), &mut found)?;
    }
    Ok(found)
}
