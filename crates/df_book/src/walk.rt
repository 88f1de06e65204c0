//! What an order does with those that rest in its span.

ghost use Rattle.std.specs.Prelude.{[], ◌∷◌, OnOk};
ghost use Rattle.df_book.specs.code.Places.{MayRest, order_at};
ghost use Rattle.df_book.specs.code.Trees.{EachMayRest, GoesOn, IsByPlace, spanned};

use crate::entry::Entry;
use crate::order::Order;
use crate::place::Span;
use crate::plan::Plan;
use crate::tree::{Fork, Tree};
use df_memory::NoMemory;

/// The order trades with what rests at an entry, if anything is left of it.
fn trade_with(entry: &Entry, order: &Order, plan: &mut Plan) -> Result<(), NoMemory>
    requires { MayRest (order_at entry.now.0 entry.now.1) }
    ensures { OnOk result (GoesOn order.now (entry.now ∷ []) plan.old plan.new) }
{
    if plan.left < 1 {
        return Ok(());
    }
    plan.trade(order, entry.place(), entry.rest())
}

/// The order trades with those that rest in the span, the first place first, while anything is
/// left of it. What stands outside the span isn't visited.
pub(crate) fn plan_in(
    tree: &Tree,
    order: &Order,
    span: &Span,
    plan: &mut Plan,
) -> Result<(), NoMemory>
    requires by_place { IsByPlace tree.now }
    requires may_rest { EachMayRest tree.now }
    ensures { OnOk result (GoesOn order.now (spanned span.now.first span.now.last tree.now)
        plan.old plan.new) }
{
    let Some(fork) = &tree.root else {
        return Ok(());
    };
    if plan.left < 1 {
        return Ok(());
    }
    let fork: &Fork = fork;
    let place = fork.entry.place();
    if place.cmp(&span.first).is_lt() {
        return plan_in(&fork.right, order, span, plan);
    }
    if place.cmp(&span.last).is_gt() {
        return plan_in(&fork.left, order, span, plan);
    }
    plan_in(&fork.left, order, span, plan)?;
    trade_with(&fork.entry, order, plan)?;
    plan_in(&fork.right, order, span, plan)
}
