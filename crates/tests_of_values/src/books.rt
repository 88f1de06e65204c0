//! A book that grows, and its copy.

use df_book::{Book, Order, Trade};
use df_frozen::Words;
use df_memory::NoMemory;
use std::alloc::Global;
use std::test::Fail;

/// An order: trader, symbol, whether it sells, limit and quantity.
type Row = (u32, &'static str, bool, i64, i64);

fn order(alloc: Global, row: Row) -> Result<Order, NoMemory> {
    let (trader, symbol, sell, limit, qty) = row;
    Ok(Order {
        id: 0,
        limit,
        qty,
        symbol: Words::new(alloc, symbol)?,
        trader,
        sell,
    })
}

fn submit(alloc: Global, book: &mut Book, row: Row) -> Result<(), Fail> {
    let order = order(alloc, row)?;
    if order.limit > 0 && order.qty > 0 {
        book.submit(order)?;
    }
    Ok(())
}

/// How many orders are put into a book that grows.
const MANY: u32 = 300;

/// Where the limits of many orders go: upwards, downwards, or to and fro.
fn limit_of(turn: u32, row: u32) -> i64 {
    let limit = match turn {
        0 => row % MANY,
        1 => MANY - row % MANY,
        _ => row % 7 * MANY + row % MANY,
    };
    i64::from(limit) + 1
}

/// Many sales of one each come to rest.
fn grow(alloc: Global, book: &mut Book, turn: u32) -> Result<(), Fail> {
    for row in 0..MANY {
        submit(alloc, book, (0, "AAA", true, limit_of(turn, row), 1))?;
    }
    Ok(())
}

/// Whether each trade is of one, and none is at a better price than the one before it.
fn are_in_order(trades: &[Trade]) -> bool {
    let mut last = 0;
    for trade in trades {
        if trade.qty != 1 || trade.price < last {
            return false;
        }
        last = trade.price;
    }
    true
}

/// How many trades a purchase of many makes, where they are in order.
fn trade_count(alloc: Global, book: &mut Book, qty: i64) -> Result<usize, Fail> {
    if qty < 1 {
        return Ok(0);
    }
    let order = order(alloc, (1, "AAA", false, 20_000, qty))?;
    if order.limit < 1 || order.qty < 1 {
        return Ok(0);
    }
    let trades = book.submit(order)?;
    if !are_in_order(trades.as_slice()) {
        return Ok(0);
    }
    Ok(trades.len())
}

/// How many of the sales are traded, first of the book and then of the other one.
fn counts_of(alloc: Global, book: &mut Book, other: &mut Book) -> Result<(usize, usize), Fail> {
    let some = trade_count(alloc, book, 100)?;
    let all = trade_count(alloc, other, 1_000)?;
    Ok((some, all))
}

/// The same with a copy that is made before.
fn copy_counts(alloc: Global, book: &mut Book) -> Result<(usize, usize), Fail> {
    let mut before = book.copy()?;
    counts_of(alloc, book, &mut before)
}

fn grown_counts(alloc: Global, book: &mut Book, turn: u32) -> Result<(usize, usize), Fail> {
    grow(alloc, book, turn)?;
    copy_counts(alloc, book)
}

fn new_counts(alloc: Global, turn: u32) -> Result<(usize, usize), Fail> {
    let mut book = Book::new(alloc);
    grown_counts(alloc, &mut book, turn)
}

#[test]
fn a_copy_stays_as_the_book_was(rt: HostRuntime) -> Result<(), Fail> {
    for turn in 0..3 {
        assert_eq!(rt;
            new_counts(rt.alloc(), turn)?,
            (100, MANY as usize),
            "in turn {}",
            turn
        );
    }
    Ok(())
}
