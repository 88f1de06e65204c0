//! One sweep through the two rankings.

ghost use Rattle.std.specs.Prelude.{◌≡◌, ◌<◌, ◌≤◌, ◌^◌, All, IfOk, length, drop};
ghost use Rattle.df_auction.specs.Stairs.{IsInRange};
ghost use Rattle.df_auction.specs.Ranking.{after, fill_of, first_left};
ghost use Rattle.df_auction.specs.code.Clearing.{Clears, split_of};

use crate::lot::{Fill, Lot, purchases, sales};
use df_book::Order;
use df_memory::NoMemory;
use std::alloc::Global;

/// Who trades with whom, the price (0 where nobody does), and the split.
#[derive(Drop)]
pub(crate) struct Clearing {
    pub fills: Vec<Fill>,
    pub price: u32,
    pub split: u32,
}

/// Pairs the first purchase with the first sale while the two can trade.
pub(crate) fn sweep(alloc: Global, orders: &[Order]) -> Result<Clearing, NoMemory>
    requires few { length orders.now < 2 ^ 32 }
    requires in_range { All IsInRange orders.now }
    ensures { IfOk result (λ s. Clears orders.now s.fills.items s.price s.split) }
{
    let mut bids = purchases(alloc, orders)?;
    let mut asks = sales(alloc, orders)?;
    let mut fills = Vec::new(alloc);
    let mut price = 0;
    let mut i = 0;
    let mut j = 0;
    while i < bids.len() && j < asks.len() {
        let bid = bids[i];
        let ask = asks[j];
        if bid.limit < ask.limit {
            break;
        }
        let fill = make_fill(bid, ask);
        fills.push(fill)?;
        price = ask.limit;
        i = trade_at(&mut bids, i, fill.qty);
        j = trade_at(&mut asks, j, fill.qty);
    }
    Ok(Clearing {
        fills,
        price,
        split: split_at(bids.as_slice(), i),
    })
}

/// One above the limit of the purchase at `i`, or 1 if there is none.
fn split_at(bids: &[Lot], i: usize) -> u32
    requires inside { i ≤ length bids.now }
    requires fits { split_of (drop i bids.now) < 2 ^ 32 }
    ensures { result ≡ split_of (drop i bids.now) }
{
    if i < bids.len() { bids[i].limit + 1 } else { 1 }
}

fn make_fill(bid: Lot, ask: Lot) -> Fill
    ensures { result ≡ fill_of bid ask }
{
    Fill {
        purchase: bid.place,
        sale: ask.place,
        qty: bid.left.min(ask.left),
    }
}

/// Takes a quantity from the lot at `i`, and gives the first place at which something is left.
fn trade_at(lots: &mut [Lot], i: usize, qty: u32) -> usize
    requires inside { i < length lots.old }
    requires fits { qty ≤ first_left (drop i lots.old) }
    ensures left { drop result lots.new ≡ after qty (drop i lots.old) }
    ensures bound { result ≤ length lots.new }
{
    let left = lots[i].left;
    if qty < left {
        lots[i].left = left - qty;
        i
    } else {
        i + 1
    }
}
