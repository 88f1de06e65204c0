//! What an auction shows of its fills: trades, and what is left of the orders.

ghost use Rattle.std.specs.Prelude.{◌≡◌, ◌+◌, ◌<◌, ◌≤◌, ◌==◌, ℕ, All, IfOk, length, map, vec_len, slice_index, if◌then◌else◌};
ghost use Rattle.df_auction.specs.Stairs.{IsInRange, qty_of};
ghost use Rattle.df_auction.specs.code.Clearing.{ArePlaced, StaysWithin};
ghost use Rattle.df_auction.specs.Auction.{trade_of, rest_of};

use crate::lot::Fill;
use df_book::{Order, Trade};
use df_memory::NoMemory;
use std::alloc::Global;

/// The fills as trades at a price.
pub(crate) fn trades(
    alloc: Global,
    orders: &[Order],
    fills: &[Fill],
    price: u32,
) -> Result<Vec<Trade>, NoMemory>
    requires { ArePlaced orders.now fills.now }
    ensures { IfOk result (λ v. v.items ≡ map (trade_of orders.now price) fills.now) }
{
    let mut trades = Vec::new(alloc);
    for fill in fills {
        trades.push(make_trade(orders, *fill, price)?)?;
    }
    Ok(trades)
}

fn make_trade(orders: &[Order], fill: Fill, price: u32) -> Result<Trade, NoMemory>
    requires purchase { fill.purchase < length orders.now }
    requires sale { fill.sale < length orders.now }
    ensures { IfOk result (λ t. t ≡ trade_of orders.now price fill) }
{
    let buyer = &orders[fill.purchase as usize];
    let seller = &orders[fill.sale as usize];
    Ok(Trade {
        price: i64::from(price),
        qty: i64::from(fill.qty),
        symbol: buyer.symbol.copy()?,
        buyer: buyer.trader,
        seller: seller.trader,
    })
}

/// The orders with what the fills leave of them.
pub(crate) fn rest(alloc: Global, orders: &[Order], fills: &[Fill]) -> Result<Vec<Order>, NoMemory>
    requires in_range { All IsInRange orders.now }
    requires placed { ArePlaced orders.now fills.now }
    requires within { StaysWithin orders.now fills.now }
    ensures { IfOk result (λ v. v.items ≡ rest_of orders.now fills.now) }
{
    let left = left(alloc, orders, fills)?;
    let mut rest = Vec::new(alloc);
    for place in 0..orders.len() {
        let order = &orders[place];
        let qty = left[place];
        if qty > 0 {
            rest.push(with_qty(order, qty)?)?;
        }
    }
    Ok(rest)
}

ghost use Rattle.std.specs.Prelude.{pos};

fn with_qty(order: &Order, qty: u32) -> Result<Order, NoMemory>
    ensures { IfOk result (λ o. o ≡ record order.now { qty = pos qty }) }
{
    let mut order = order.copy()?;
    order.qty = i64::from(qty);
    Ok(order)
}

/// What is left of the order at each place.
fn left(alloc: Global, orders: &[Order], fills: &[Fill]) -> Result<Vec<u32>, NoMemory>
    requires in_range { All IsInRange orders.now }
    requires placed { ArePlaced orders.now fills.now }
    requires within { StaysWithin orders.now fills.now }
    ensures len { IfOk result (λ v. vec_len v ≡ length orders.now) }
    ensures left { IfOk result (λ v. IsLeft orders.now fills.now v.items) }
{
    let mut left = quantities(alloc, orders)?;
    for fill in fills {
        give(&mut left, fill.purchase, fill.qty);
        give(&mut left, fill.sale, fill.qty);
    }
    Ok(left)
}

ghost use Rattle.df_auction.specs.code.Clearing.{IsLeft};

fn quantities(alloc: Global, orders: &[Order]) -> Result<Vec<u32>, NoMemory>
    requires { All IsInRange orders.now }
    ensures { IfOk result (λ v. v.items ≡ map qty_of orders.now) }
{
    let mut quantities = Vec::new(alloc);
    for order in orders {
        quantities.push(order.qty as u32)?;
    }
    Ok(quantities)
}

/// Takes a quantity from what is left at a place.
fn give(left: &mut [u32], place: u32, qty: u32)
    requires inside { place < length left.old }
    requires fits { qty ≤ slice_index left.old place }
    ensures { (k : ℕ)
        → slice_index left.new k + (if place == k then qty else 0) ≡ slice_index left.old k }
{
    left[place as usize] -= qty;
}
