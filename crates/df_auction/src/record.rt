//! An order of the fields of a record.

ghost use Rattle.std.specs.Prelude.{◌≡◌, ◌↔◌, IfOk, IsTrue};
ghost use Rattle.csv.specs.Records.{fields_of};
ghost use Rattle.df_auction.specs.OrderFile.{header, order_of, order_of_six};
ghost use Rattle.df_auction.specs.Refusing.{HasSix, fields_of_six};

use csv::ByteRecord;
use df_book::Order;
use df_memory::NoMemory;
use df_records::{Form, field, is_symbol, number, symbol};
use std::alloc::Global;

/// The fields of a record with six.
#[derive(Clone, Copy)]
struct Six<'a> {
    pub id: &'a [u8],
    pub trader: &'a [u8],
    pub symbol: &'a [u8],
    pub sell: &'a [u8],
    pub limit: &'a [u8],
    pub qty: &'a [u8],
}

/// The fields of a record, if it has six.
fn six_fields(row: &ByteRecord) -> Option<Six<'_>>
    ensures { HasSix (fields_of row.now) result }
{
    if row.len() != 6 {
        return None;
    }
    Some(Six {
        id: field(row, 0),
        trader: field(row, 1),
        symbol: field(row, 2),
        sell: field(row, 3),
        limit: field(row, 4),
        qty: field(row, 5),
    })
}

/// The order of a record, if it is in form.
fn read_order(alloc: Global, row: &ByteRecord) -> Result<Option<Order>, NoMemory>
    ensures { IfOk result (λ o. o ≡ order_of (fields_of row.now)) }
{
    match six_fields(row) {
        Some(six) => order_of_six(
            alloc, six.id, six.trader, six.symbol, six.sell, six.limit, six.qty,
        ),
        None => Ok(None),
    }
}

fn order_of_six(
    alloc: Global,
    id: &[u8],
    trader: &[u8],
    name: &[u8],
    sell: &[u8],
    limit: &[u8],
    qty: &[u8],
) -> Result<Option<Order>, NoMemory>
    ensures { IfOk result
        (λ o. o ≡ order_of_six id.now trader.now name.now sell.now limit.now qty.now) }
{
    if !is_symbol(name) {
        return Ok(None);
    }
    let Some(id) = number(id, 0, 4_294_967_295) else {
        return Ok(None);
    };
    let Some(trader) = number(trader, 0, 4_294_967_295) else {
        return Ok(None);
    };
    let Some(sell) = number(sell, 0, 1) else {
        return Ok(None);
    };
    let Some(limit) = number(limit, 1, 1_000_000_000) else {
        return Ok(None);
    };
    let Some(qty) = number(qty, 1, 1_000_000) else {
        return Ok(None);
    };
    Ok(Some(Order {
        id: i64::from(id),
        limit: i64::from(limit),
        qty: i64::from(qty),
        symbol: symbol(alloc, name)?,
        trader,
        sell: sell == 1,
    }))
}

/// Whether the fields are the names of the columns.
fn names_columns(six: &Six<'_>) -> bool
    ensures { IsTrue result ↔ (fields_of_six six.now ≡ header) }
{
    six.id == b"id".as_slice()
        && six.trader == b"trader".as_slice()
        && six.symbol == b"symbol".as_slice()
        && six.sell == b"sell".as_slice()
        && six.limit == b"limit".as_slice()
        && six.qty == b"qty".as_slice()
}

/// Files of orders.
pub(crate) struct OrderForm;

impl Form<Order> for OrderForm {
    ghost use Rattle.df_auction.specs.OrderFile.{header, order_of};

    ghost header = { header };

    ghost told_of = { order_of };

    fn is_header(row: &ByteRecord) -> bool {
        match six_fields(row) {
            Some(six) => names_columns(&six),
            None => false,
        }
    }

    fn read(alloc: Global, row: &ByteRecord) -> Result<Option<Order>, NoMemory> {
        read_order(alloc, row)
    }
}
