//! The auction and its certificate.

ghost use Rattle.std.specs.Prelude.{◌≡◌, ◌↔◌, ◌<◌, ◌^◌, All, IsTrue, IfOk, length, pos};
ghost use Rattle.df_auction.specs.Stairs.{IsInRange, Certifies, buys_at, sells_at, demand, supply};
ghost use Rattle.df_auction.specs.Matching.{total};
ghost use Rattle.df_auction.specs.Auction.{IsMarket, Settles};

use crate::lot::Fill;
use crate::outcome::Auction;
use crate::shown::{rest, trades};
use crate::sweep::sweep;
use df_book::{Order, Orders, Trades};
use df_memory::NoMemory;
use std::alloc::Global;

/// Finds the least of the prices at which the greatest quantity trades, and trades it.
///
/// Sorts each side once, and goes through both once.
pub fn auction(alloc: Global, orders: &[Order]) -> Result<Auction, NoMemory>
    requires { IsMarket orders.now }
    ensures { IfOk result (Settles orders.now) }
{
    let clearing = sweep(alloc, orders)?;
    let fills = clearing.fills.as_slice();
    let trades = trades(alloc, orders, fills, clearing.price)?;
    let rest = rest(alloc, orders, fills)?;
    Ok(Auction {
        volume: total(fills),
        price: price_of(clearing.price),
        split: i64::from(clearing.split),
        trades: Trades::new(trades),
        rest: Orders::new(rest),
    })
}

ghost use Rattle.std.specs.Prelude.{option_map};
ghost use Rattle.df_auction.specs.code.Clearing.{price_of};

fn price_of(price: u32) -> Option<i64>
    ensures { result ≡ option_map pos (price_of price) }
{
    if price == 0 {
        None
    } else {
        Some(i64::from(price))
    }
}

fn total(fills: &[Fill]) -> i128
    ensures { result ≡ pos (total fills.now) }
{
    let mut sum = 0u128;
    for fill in fills {
        sum += fill.qty as u128;
    }
    sum as i128
}

/// Whether the split shows that no matching at any one price has a greater total than the volume.
pub fn certified(orders: &[Order], volume: i128, split: i64) -> bool
    requires { IsMarket orders.now }
    ensures { IsTrue result ↔ Certifies orders.now volume split }
{
    split >= 1
        && demand(orders, split as u64) as i128 <= volume
        && supply(orders, split as u64 - 1) as i128 <= volume
}

fn demand(orders: &[Order], price: u64) -> u64
    requires few { length orders.now < 2 ^ 32 }
    requires in_range { All IsInRange orders.now }
    ensures { result ≡ demand orders.now price }
{
    let mut sum = 0;
    for order in orders {
        sum += asked(order, price);
    }
    sum
}

fn supply(orders: &[Order], price: u64) -> u64
    requires few { length orders.now < 2 ^ 32 }
    requires in_range { All IsInRange orders.now }
    ensures { result ≡ supply orders.now price }
{
    let mut sum = 0;
    for order in orders {
        sum += offered(order, price);
    }
    sum
}

ghost use Rattle.std.specs.Prelude.{◌≤◌, if◌then◌else◌};
ghost use Rattle.df_auction.specs.Stairs.{qty_of};

fn asked(order: &Order, price: u64) -> u64
    requires { IsInRange order.now }
    ensures value { result ≡ (if buys_at price order.now then qty_of order.now else 0) }
    ensures small { result ≤ 1_000_000 }
{
    if !order.sell && price <= order.limit as u64 {
        order.qty as u64
    } else {
        0
    }
}

fn offered(order: &Order, price: u64) -> u64
    requires { IsInRange order.now }
    ensures value { result ≡ (if sells_at price order.now then qty_of order.now else 0) }
    ensures small { result ≤ 1_000_000 }
{
    if order.sell && order.limit as u64 <= price {
        order.qty as u64
    } else {
        0
    }
}
