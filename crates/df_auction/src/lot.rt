//! What the orders are to an auction: lots, and the fills that pair them.

ghost use Rattle.std.specs.Prelude.{◌≡◌, ◌<◌, ◌^◌, All, IfOk, length};
ghost use Rattle.df_auction.specs.Stairs.{IsInRange, is_on};
ghost use Rattle.df_auction.specs.Ranking.{lots, purchases, sales};

use df_book::Order;
use df_memory::NoMemory;
use std::alloc::Global;

/// An order by its place in the list: its limit, and what is left of its quantity.
#[derive(Clone, Copy)]
pub(crate) struct Lot {
    pub limit: u32,
    pub place: u32,
    pub left: u32,
}

/// A quantity for a purchase and a sale, by their places in the list of orders.
#[derive(Clone, Copy)]
pub(crate) struct Fill {
    pub purchase: u32,
    pub sale: u32,
    pub qty: u32,
}

/// The purchases in rank.
pub(crate) fn purchases(alloc: Global, orders: &[Order]) -> Result<Vec<Lot>, NoMemory>
    requires few { length orders.now < 2 ^ 32 }
    requires in_range { All IsInRange orders.now }
    ensures { IfOk result (λ v. v.items ≡ purchases orders.now) }
{
    let mut bids = lots(alloc, orders, false)?;
    bids.sort_by(|x, y| y.limit.cmp(&x.limit))?;
    Ok(bids)
}

/// The sales in rank.
pub(crate) fn sales(alloc: Global, orders: &[Order]) -> Result<Vec<Lot>, NoMemory>
    requires few { length orders.now < 2 ^ 32 }
    requires in_range { All IsInRange orders.now }
    ensures { IfOk result (λ v. v.items ≡ sales orders.now) }
{
    let mut asks = lots(alloc, orders, true)?;
    asks.sort_by(|x, y| x.limit.cmp(&y.limit))?;
    Ok(asks)
}

fn lots(alloc: Global, orders: &[Order], sell: bool) -> Result<Vec<Lot>, NoMemory>
    requires few { length orders.now < 2 ^ 32 }
    requires in_range { All IsInRange orders.now }
    ensures { IfOk result (λ v. v.items ≡ lots (is_on sell) 0 orders.now) }
{
    let mut lots = Vec::new(alloc);
    for place in 0..orders.len() {
        let order = &orders[place];
        if order.sell == sell {
            lots.push(make_lot(order, place as u32))?;
        }
    }
    Ok(lots)
}

ghost use Rattle.df_auction.specs.Ranking.{lot_of};

fn make_lot(order: &Order, place: u32) -> Lot
    requires { IsInRange order.now }
    ensures { result ≡ lot_of place order.now }
{
    Lot {
        limit: order.limit as u32,
        place,
        left: order.qty as u32,
    }
}
