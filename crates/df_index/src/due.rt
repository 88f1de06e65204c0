//! To which subscriptions an event is to be handed at a commit.

ghost use Rattle.std.specs.Prelude.{◌≡◌, ◌+◌, ◌<◌, ◌≤◌, ◌++◌, Some, length, OnOk, IfOk};
ghost use Rattle.std.specs.List.{All, list_any};
ghost use Rattle.std.specs.List.Sorted.{IsSorted};
ghost use Rattle.df_part.specs.Part.{readable};
ghost use Rattle.df_index.specs.Due.{has_pair, pair_cmp, pair_where, pairs_at};
ghost use Rattle.df_index.specs.Occasion.{is_due_on};

use crate::{Listed, Subscription, Tester};
use df_label::Label;
use df_memory::NoMemory;
use df_part::{Contents, Edit, PartRef, readable};
use std::alloc::Global;

/// A commit on an event: the labels of the units, the pairs to which the event was handed, its
/// contents after the commit, and what the commit deletes and adds.
#[derive(Drop)]
pub(crate) struct Occasion<'a> {
    pub labels: &'a [Label],
    pub handed: &'a [(usize, u32)],
    pub contents: &'a Contents,
    pub edit: &'a Edit,
}

fn has_pair(handed: &[(usize, u32)], pair: (usize, u32)) -> bool
    requires { IsSorted pair_cmp handed.now }
    ensures { result ≡ has_pair handed.now pair }
{
    handed.binary_search(&pair).is_ok()
}

fn is_readable(at: &Label, part: &PartRef) -> bool
    ensures { result ≡ readable at.now part.now }
{
    readable(at, part.part())
}

fn any_readable(at: &Label, parts: &[PartRef]) -> bool
    ensures { result ≡ list_any (readable at.now) parts.now }
{
    parts.iter().any(|part| is_readable(at, part))
}

/// Whether the event is to be handed to the subscription.
fn is_due<F: Listed, T: Tester<F>>(
    occasion: &Occasion<'_>,
    subscription: &Subscription<F>,
    tester: &mut T,
) -> bool
    requires labelled { subscription.now.unit < length occasion.now.labels.now }
    requires ascending { IsSorted pair_cmp occasion.now.handed.now }
    ensures due { result ≡ is_due_on F.matches occasion.now subscription.now }
    ensures bound { T.count tester.new ≤ T.count tester.old + 1 }
{
    let at = &occasion.labels[subscription.unit];
    if has_pair(occasion.handed, (subscription.unit, subscription.sub)) {
        return false;
    }
    if !any_readable(at, occasion.edit.added()) {
        return false;
    }
    tester.test(&subscription.filter, at, occasion.contents)
}

/// Adds the pair of the subscription, if the event is to be handed to it.
fn add_if_due<F: Listed, T: Tester<F>>(
    occasion: &Occasion<'_>,
    subscription: &Subscription<F>,
    tester: &mut T,
    found: &mut Vec<(usize, u32)>,
) -> Result<(), NoMemory>
    requires labelled { subscription.now.unit < length occasion.now.labels.now }
    requires ascending { IsSorted pair_cmp occasion.now.handed.now }
    ensures found { OnOk result (found.new.items ≡ found.old.items
        ++ pair_where (is_due_on F.matches occasion.now) (Some subscription.now)) }
    ensures bound { T.count tester.new ≤ T.count tester.old + 1 }
{
    if is_due(occasion, subscription, tester) {
        found.push((subscription.unit, subscription.sub))?;
    }
    Ok(())
}

/// The pairs of those of the subscriptions at these places to which the event is to be handed.
pub(crate) fn due<F: Listed, T: Tester<F>>(
    alloc: Global,
    occasion: &Occasion<'_>,
    subscriptions: &[Subscription<F>],
    places: &[usize],
    tester: &mut T,
) -> Result<Vec<(usize, u32)>, NoMemory>
    requires within { All (λ k. k < length subscriptions.now) places.now }
    requires labelled { All (λ s. s.unit < length occasion.now.labels.now) subscriptions.now }
    requires ascending { IsSorted pair_cmp occasion.now.handed.now }
    ensures due { IfOk result (λ v. v.items
        ≡ pairs_at (is_due_on F.matches occasion.now) subscriptions.now places.now) }
    ensures bound { T.count tester.new ≤ T.count tester.old + length places.now }
{
    let mut found = Vec::new(alloc);
    for place in places {
        add_if_due(occasion, &subscriptions[*place], tester, &mut found)?;
    }
    Ok(found)
}
