//! Where an order rests, and what of it does.

ghost use Rattle.std.specs.Prelude.{◌≡◌, ◌≤ℤ◌, ◌<ℤ◌, pos, string_bytes, IfOk};
ghost use Rattle.df_book.specs.code.Places.{rank_of, limit_of};

use crate::order::Order;
use df_memory::NoMemory;
use std::alloc::Global;

/// A place in a book. Of the places of a symbol and a side, the one that trades first comes first.
#[derive(PartialEq, Eq, PartialOrd, Ord, Drop)]
pub(crate) struct Place {
    pub symbol: String,
    pub sell: bool,
    /// The limit of a sale, the negative of the limit of a purchase.
    pub rank: i64,
    /// The number of the order among all that rest or rested.
    pub arrival: u64,
}

/// What rests at a place.
#[derive(Clone, Copy)]
pub(crate) struct Rest {
    pub id: i64,
    pub qty: i64,
    pub trader: u32,
}

impl Place {
    pub(crate) fn new(alloc: Global, order: &Order, arrival: u64) -> Result<Place, NoMemory>
        requires { pos 1 ≤ℤ order.now.limit }
        ensures symbol { IfOk result (λ p. string_bytes p.symbol ≡ order.now.symbol) }
        ensures sell { IfOk result (λ p. p.sell ≡ order.now.sell) }
        ensures rank { IfOk result (λ p. p.rank ≡ rank_of order.now) }
        ensures arrival { IfOk result (λ p. p.arrival ≡ arrival) }
    {
        Ok(Place {
            symbol: String::from_str(alloc, order.symbol.as_str())?,
            sell: order.sell,
            rank: rank_of(order),
            arrival,
        })
    }

    pub(crate) fn limit(&self) -> i64
        requires { i64.MIN <ℤ self.now.rank }
        ensures { result ≡ limit_of self.now }
    {
        if self.sell { self.rank } else { -self.rank }
    }
}

/// Where an order stands among those of its side: the less, the better to trade with.
fn rank_of(order: &Order) -> i64
    requires { pos 1 ≤ℤ order.now.limit }
    ensures { result ≡ rank_of order.now }
{
    if !order.sell {
        return -order.limit;
    }
    order.limit
}

/// From the first to the last place at which an order may find one that it meets.
#[derive(Drop)]
pub(crate) struct Span {
    pub first: Place,
    pub last: Place,
}

ghost use Rattle.df_book.specs.code.Places.{IsSpan};

impl Span {
    pub(crate) fn of(alloc: Global, order: &Order) -> Result<Span, NoMemory>
        requires { pos 1 ≤ℤ order.now.limit }
        ensures { IfOk result (λ s. IsSpan order.now s.first s.last) }
    {
        let first = Place {
            symbol: String::from_str(alloc, order.symbol.as_str())?,
            sell: !order.sell,
            rank: i64::MIN,
            arrival: 0,
        };
        let last = Place {
            symbol: String::from_str(alloc, order.symbol.as_str())?,
            sell: !order.sell,
            rank: if order.sell {
                -order.limit
            } else {
                order.limit
            },
            arrival: u64::MAX,
        };
        Ok(Span { first, last })
    }
}
