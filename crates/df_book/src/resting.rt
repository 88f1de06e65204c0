//! What an order does to the places at which others rest.

ghost use Rattle.std.specs.Prelude.{◌≡◌, ◌++◌, not, string_bytes, IfOk};
ghost use Rattle.df_book.specs.code.Places.{IsSpan, IsInOrder, MayRest, IsPlan, AreFills, IsTaken};
ghost use Rattle.df_book.specs.code.Places.{by_arrival, plan_of, queue, resting_of, filled, left_at};
ghost use Rattle.df_book.specs.code.Trees.{IsByPlace};

use crate::changes;
use crate::entry::Entry;
use crate::order::Order;
use crate::place::{Place, Rest, Span};
use crate::plan::{Fill, Plan};
use crate::tree::Tree;
use crate::walk::plan_in;
use df_memory::NoMemory;
use std::alloc::Global;

/// What an order does with those that it meets.
pub(crate) fn plan(
    alloc: Global,
    orders: &Tree,
    order: &Order,
    span: &Span,
) -> Result<Plan, NoMemory>
    requires span { IsSpan order.now span.now.first span.now.last }
    requires by_place { IsByPlace orders.now }
    requires in_order { IsInOrder 0 u64.MAX (by_arrival orders.now) }
    ensures { IfOk result (IsPlan
        (plan_of order.now order.now.qty (queue order.now (by_arrival orders.now)))) }
{
    let mut plan = Plan::new(alloc, order.qty);
    plan_in(orders, order, span, &mut plan)?;
    Ok(plan)
}

/// The orders, and how many arrived.
#[derive(Drop)]
pub(crate) struct Arrived {
    pub orders: Tree,
    pub arrivals: u64,
}

/// What is left of an order comes to rest, with the number of its arrival.
pub(crate) fn rest(
    alloc: Global,
    orders: Tree,
    order: &Order,
    left: i64,
    arrivals: u64,
) -> Result<Arrived, NoMemory>
    requires may_rest { MayRest order.now }
    requires by_place { IsByPlace orders }
    requires in_order { IsInOrder 0 arrivals (by_arrival orders) }
    ensures rests { IfOk result (λ a. by_arrival a.orders
        ≡ by_arrival orders ++ resting_of arrivals left order.now) }
    ensures by_place { IfOk result (λ a. IsByPlace a.orders) }
    ensures in_order { IfOk result (λ a. IsInOrder 0 a.arrivals (by_arrival a.orders)) }
{
    if left < 1 {
        return Ok(Arrived { orders, arrivals });
    }
    if arrivals == u64::MAX {
        return Err(NoMemory);
    }
    let place = Place::new(alloc, order, arrivals)?;
    let rest = Rest {
        id: order.id,
        qty: left,
        trader: order.trader,
    };
    let entry = Entry::new(alloc, place, rest)?;
    let orders = changes::put(alloc, &orders, entry)?;
    Ok(Arrived {
        orders,
        arrivals: arrivals + 1,
    })
}

/// Of the resting orders there is left what the trades leave. They are of the place's symbol, and
/// of its side.
pub(crate) fn settle(
    alloc: Global,
    orders: &Tree,
    order: &Order,
    place: Place,
    fills: &[Fill],
) -> Result<Tree, NoMemory>
    requires symbol { string_bytes place.symbol ≡ order.now.symbol }
    requires sell { place.sell ≡ not order.now.sell }
    requires by_place { IsByPlace orders.now }
    requires in_order { IsInOrder 0 u64.MAX (by_arrival orders.now) }
    requires fills { AreFills order.now fills.now (by_arrival orders.now) }
    ensures filled { IfOk result (λ t. by_arrival t ≡ filled fills.now (by_arrival orders.now)) }
    ensures by_place { IfOk result IsByPlace }
{
    let mut left = orders.share()?;
    let mut place = place;
    for fill in fills {
        place.rank = fill.rank;
        place.arrival = fill.arrival;
        left = leave(alloc, &left, &place, fill.left)?;
    }
    Ok(left)
}

/// Leaves so much of the order at a place.
fn leave(alloc: Global, orders: &Tree, place: &Place, left: i64) -> Result<Tree, NoMemory>
    requires by_place { IsByPlace orders.now }
    requires in_order { IsInOrder 0 u64.MAX (by_arrival orders.now) }
    requires taken { IsTaken place.now orders.now }
    ensures left { IfOk result (λ t. by_arrival t
        ≡ left_at place.now.arrival left (by_arrival orders.now)) }
    ensures by_place { IfOk result IsByPlace }
{
    changes::leave(alloc, orders, place, left)
}
