//! What a trader orders.

ghost use Rattle.std.specs.Prelude.{◌≡◌, ◌↔◌, IsTrue, IfOk};
ghost use Rattle.df_floor_units.specs.Trading.{counted, limit_of, offer_of, sells};

use df_memory::NoMemory;
use df_messages::{Match, Offer};

/// A trader: its number, its terms, and the number of its next order.
#[derive(Clone, Copy, Debug)]
pub(crate) struct Trader {
    pub number: u16,
    pub quantity: i64,
    pub slack: u32,
    pub contrary: bool,
    pub next_order: i64,
}

impl Trader {
    pub(crate) fn same(&self, other: &Trader) -> bool
        ensures { IsTrue result ↔ (self.now ≡ other.now) }
    {
        self.number == other.number
            && self.quantity == other.quantity
            && self.slack == other.slack
            && self.contrary == other.contrary
            && self.next_order == other.next_order
    }

    /// Whether the order for the first symbol of a match, or for the second, is a sale.
    fn sells(&self, found: &Match, second: bool) -> bool
        ensures { result ≡ sells self.now found.now second }
    {
        let first_is_dear = found.side == 1;
        let sells_first = first_is_dear != self.contrary;
        sells_first != second
    }

    /// The order for the first symbol of a match, or for the second.
    pub(crate) fn offer(&self, found: &Match, second: bool) -> Result<Offer, NoMemory>
        ensures { IfOk result (λ o. o ≡ offer_of self.now found.now second) }
    {
        let (symbol, price) = if second {
            (&found.second, found.second_price)
        } else {
            (&found.first, found.first_price)
        };
        let sell = self.sells(found, second);
        Ok(Offer {
            id: self.next_order,
            limit: limit_of(sell, price, self.slack),
            qty: self.quantity,
            sell,
            symbol: symbol.copy()?,
            trader: i64::from(self.number),
        })
    }
}

fn limit_of(sell: bool, price: i64, slack: u32) -> i64
    ensures { result ≡ limit_of sell price slack }
{
    let slack = i64::from(slack);
    if sell {
        if price <= slack { 1 } else { price - slack }
    } else if price > i64::MAX - slack {
        i64::MAX
    } else {
        price + slack
    }
}

/// One more, up to the greatest number.
pub(crate) fn counted(n: i64) -> i64
    ensures { result ≡ counted n }
{
    if n < i64::MAX { n + 1 } else { n }
}
