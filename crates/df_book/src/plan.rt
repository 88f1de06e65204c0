//! What an order is to do to a book, worked out before anything moves.

ghost use Rattle.std.specs.Prelude.{◌≡◌, ◌++◌, ◌∷◌, [], ◌-ℤ◌, ◌≤ℤ◌, pos, IfOk, OnOk};
ghost use Rattle.df_book.specs.Submitting.{lesser, trade_of};
ghost use Rattle.df_book.specs.code.Places.{order_at, arrived, fill_of, MayRest};

use crate::order::Order;
use crate::place::{Place, Rest};
use crate::trade::Trade;
use df_memory::NoMemory;
use std::alloc::Global;

/// What a trade leaves of a resting order.
#[derive(Clone, Copy)]
pub(crate) struct Fill {
    pub rank: i64,
    pub arrival: u64,
    pub left: i64,
}

/// The trades of an order, what they leave of the resting orders, and of the order itself.
#[derive(Drop)]
pub(crate) struct Plan {
    pub trades: Vec<Trade>,
    pub fills: Vec<Fill>,
    pub left: i64,
}

impl Plan {
    pub(crate) fn new(alloc: Global, left: i64) -> Plan
        ensures trades { result.trades.items ≡ [] }
        ensures fills { result.fills.items ≡ [] }
        ensures left { result.left ≡ left }
    {
        Plan {
            trades: Vec::new(alloc),
            fills: Vec::new(alloc),
            left,
        }
    }

    /// One more trade, with what rests at a place.
    pub(crate) fn trade(
        &mut self,
        order: &Order,
        place: &Place,
        rest: &Rest,
    ) -> Result<(), NoMemory>
        requires some { pos 1 ≤ℤ self.old.left }
        requires may_rest { MayRest (order_at place.now rest.now) }
        ensures trades { OnOk result (self.new.trades.items ≡ self.old.trades.items
            ++ trade_of order.now (order_at place.now rest.now)
            (lesser self.old.left rest.now.qty) ∷ []) }
        ensures fills { OnOk result (self.new.fills.items ≡ self.old.fills.items
            ++ fill_of self.old.left (arrived (place.now, rest.now)) ∷ []) }
        ensures left { OnOk result (self.new.left
            ≡ self.old.left -ℤ lesser self.old.left rest.now.qty) }
    {
        let qty = lesser(self.left, rest.qty);
        self.trades.push(trade_of(order, place, rest, qty)?)?;
        self.fills.push(fill_of(self.left, place, rest))?;
        self.left -= qty;
        Ok(())
    }
}

fn lesser(a: i64, b: i64) -> i64
    ensures { result ≡ lesser a b }
{
    if a < b { a } else { b }
}

fn fill_of(left: i64, place: &Place, rest: &Rest) -> Fill
    requires some { pos 1 ≤ℤ left }
    requires may_rest { MayRest (order_at place.now rest.now) }
    ensures { result ≡ fill_of left (arrived (place.now, rest.now)) }
{
    Fill {
        rank: place.rank,
        arrival: place.arrival,
        left: rest.qty - lesser(left, rest.qty),
    }
}

fn trade_of(order: &Order, place: &Place, rest: &Rest, qty: i64) -> Result<Trade, NoMemory>
    requires { MayRest (order_at place.now rest.now) }
    ensures { IfOk result (λ t. t ≡ trade_of order.now (order_at place.now rest.now) qty) }
{
    Ok(Trade {
        price: place.limit(),
        qty,
        symbol: order.symbol.copy()?,
        buyer: if order.sell {
            rest.trader
        } else {
            order.trader
        },
        seller: if order.sell {
            order.trader
        } else {
            rest.trader
        },
    })
}
