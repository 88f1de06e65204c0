//! Whether the same orders rest at the places of two books.

ghost use Rattle.std.specs.Prelude.{◌≡◌, ◌↔◌, IsTrue};
ghost use Rattle.std.specs.Map.{values_of};
ghost use Rattle.df_book.specs.code.Earliest.{due, earliest, shown, sooner};
ghost use Rattle.df_book.specs.code.Places.{by_arrival, order_at, IsInOrder};

use crate::place::{Place, Rest};
use crate::tree::{Fork, Tree};

/// The one of two that came first.
fn sooner<'a>(
    best: Option<(&'a Place, &'a Rest)>,
    from: u64,
    place: &'a Place,
    rest: &'a Rest,
) -> Option<(&'a Place, &'a Rest)>
    ensures { shown result ≡ sooner (shown best.entry) (due from (place.now, rest.now)) }
{
    if place.arrival < from {
        return best;
    }
    match best {
        Some((first, _)) if first.arrival < place.arrival => best,
        _ => Some((place, rest)),
    }
}

/// What came first of the best so far and all that arrived from a number on.
fn soonest<'a>(
    best: Option<(&'a Place, &'a Rest)>,
    from: u64,
    orders: &'a Tree,
) -> Option<(&'a Place, &'a Rest)>
    ensures { shown result ≡ sooner (shown best.entry) (earliest from orders.now) }
{
    let Some(fork) = &orders.root else {
        return best;
    };
    let fork: &Fork = fork;
    let left = soonest(best, from, &fork.left);
    let here = sooner(left, from, fork.entry.place(), fork.entry.rest());
    soonest(here, from, &fork.right)
}

/// What came first of all that arrived from a number on.
fn earliest(orders: &Tree, from: u64) -> Option<(&Place, &Rest)>
    ensures { shown result ≡ earliest from orders.now }
{
    soonest(None, from, orders)
}

/// Whether the orders at two places are equal.
fn same_at(place: &Place, rest: &Rest, other: &Place, other_rest: &Rest) -> bool
    ensures { IsTrue result
        ↔ (order_at place.now rest.now ≡ order_at other.now other_rest.now) }
{
    place.symbol.as_str() == other.symbol.as_str()
        && place.sell == other.sell
        && place.rank == other.rank
        && rest.id == other_rest.id
        && rest.qty == other_rest.qty
        && rest.trader == other_rest.trader
}

/// Whether the same orders rest, in the same order of arrival. The arrivals themselves may differ.
pub(crate) fn same_in_order(a: &Tree, b: &Tree) -> bool
    requires a_in_order { IsInOrder 0 u64.MAX (by_arrival a.now) }
    requires b_in_order { IsInOrder 0 u64.MAX (by_arrival b.now) }
    ensures { IsTrue result
        ↔ (values_of (by_arrival a.now) ≡ values_of (by_arrival b.now)) }
{
    let mut a_from = 0;
    let mut b_from = 0;
    loop {
        match (earliest(a, a_from), earliest(b, b_from)) {
            (None, None) => return true,
            (Some((place, rest)), Some((other, other_rest))) => {
                if !same_at(place, rest, other, other_rest) {
                    return false;
                }
                a_from = place.arrival + 1;
                b_from = other.arrival + 1;
            }
            _ => return false,
        }
    }
}
