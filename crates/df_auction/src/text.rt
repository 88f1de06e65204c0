//! The lines of the auctions of a list of orders.

ghost use Rattle.std.specs.Prelude.{◌≡◌, ◌++◌, ◌<◌, ◌^◌, All, IfOk, OnOk, string_bytes};
ghost use Rattle.std.specs.List.{flat_map};
ghost use Rattle.df_auction.specs.AuctionText.{auction_lines, price_line, trade_line};

use crate::market::auction;
use crate::orders::{OrdersRefused, read_orders};
use crate::outcome::Auction;
use df_book::{Order, Trade};
use df_memory::NoMemory;
use std::alloc::Global;
use std::fmt::Write;

/// The lines of the auctions of a file of orders.
pub fn auction_text(alloc: Global, bytes: &[u8]) -> Result<Vec<u8>, OrdersRefused>
    requires { length bytes.now < 2 ^ 32 }
    ensures text { IfOk result (λ v. IsTextOfFile bytes.now v.items) }
    ensures refused { IfErr result (IsRightRefusal bytes.now) }
{
    let orders = read_orders(alloc, bytes)?;
    Ok(write_auctions(alloc, orders)?)
}

ghost use Rattle.std.specs.Prelude.{IfErr};
ghost use Rattle.df_auction.specs.Refusing.{IsRightRefusal};
ghost use Rattle.df_auction.specs.AuctionText.{IsTextOfFile};

/// The lines of the auctions of these orders: by symbol, ascending, each symbol's orders in the
/// order in which they came.
pub fn write_auctions(alloc: Global, mut orders: Vec<Order>) -> Result<Vec<u8>, NoMemory>
    requires few { length orders.items < 2 ^ 32 }
    requires in_range { All IsInRange orders.items }
    ensures { IfOk result (λ v. IsText orders.items v.items) }
{
    orders.sort_by(|x, y| x.symbol.as_str().cmp(y.symbol.as_str()))?;
    let mut text = String::new(alloc);
    let mut i = 0;
    while i < orders.len() {
        let end = run_end(orders.as_slice(), i);
        append_market(alloc, &mut text, &orders[i..end])?;
        i = end;
    }
    Ok(text.into_bytes())
}

ghost use Rattle.std.specs.Prelude.{ℕ, ◌≤◌, ◌≢◌, length, slice_index_or};
ghost use Rattle.df_book.specs.declared.order.Order.{Order};

/// The end of the orders from `i` on that have its symbol.
fn run_end(orders: &[Order], i: usize) -> usize
    requires { i < length orders.now }
    ensures some { i < result }
    ensures bound { result ≤ length orders.now }
    ensures same { (k : ℕ) (d : Order) → i ≤ k → k < result
        → (slice_index_or orders.now k d).symbol ≡ (slice_index_or orders.now i d).symbol }
    ensures other { (d : Order) → result < length orders.now
        → (slice_index_or orders.now result d).symbol ≢ (slice_index_or orders.now i d).symbol }
{
    let symbol = orders[i].symbol.as_str();
    let mut end = i + 1;
    while end < orders.len() {
        if orders[end].symbol.as_str() != symbol {
            break;
        }
        end += 1;
    }
    end
}

ghost use Rattle.df_auction.specs.AuctionText.{AppendsMarket, IsText};
ghost use Rattle.df_auction.specs.Auction.{IsMarket};
ghost use Rattle.df_auction.specs.Stairs.{IsInRange};

/// Appends the lines of the auction of one symbol.
fn append_market(alloc: Global, text: &mut String, market: &[Order]) -> Result<(), NoMemory>
    requires some { 0 < length market.now }
    requires market { IsMarket market.now }
    ensures { OnOk result
        (AppendsMarket market.now (string_bytes text.old) (string_bytes text.new)) }
{
    let outcome = auction(alloc, market)?;
    append_auction(text, market[0].symbol.as_str(), &outcome)
}

/// Appends the lines of an auction.
fn append_auction(text: &mut String, symbol: &str, auction: &Auction) -> Result<(), NoMemory>
    ensures { OnOk result
        (string_bytes text.new ≡ string_bytes text.old ++ auction_lines symbol.now auction.now) }
{
    text.push_str("symbol ")?;
    text.push_str(symbol)?;
    text.push_str("\n")?;
    append_price(text, auction.price)?;
    write!(text, "volume {}\n", auction.volume)?;
    write!(text, "split {}\n", auction.split)?;
    append_trades(text, auction.trades.as_slice())
}

fn append_price(text: &mut String, price: Option<i64>) -> Result<(), NoMemory>
    ensures { OnOk result (string_bytes text.new ≡ string_bytes text.old ++ price_line price) }
{
    match price {
        Some(price) => write!(text, "price {price}\n")?,
        None => text.push_str("price none\n")?,
    }
    Ok(())
}

fn append_trades(text: &mut String, trades: &[Trade]) -> Result<(), NoMemory>
    ensures { OnOk result
        (string_bytes text.new ≡ string_bytes text.old ++ flat_map trade_line trades.now) }
{
    for trade in trades {
        append_trade(text, trade)?;
    }
    Ok(())
}

fn append_trade(text: &mut String, trade: &Trade) -> Result<(), NoMemory>
    ensures { OnOk result (string_bytes text.new ≡ string_bytes text.old ++ trade_line trade.now) }
{
    let buyer = trade.buyer;
    let seller = trade.seller;
    let qty = trade.qty;
    write!(text, "trade {buyer} {seller} {qty}\n")?;
    Ok(())
}
