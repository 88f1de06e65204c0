//! A tick of the fields of a record.

ghost use Rattle.std.specs.Prelude.{◌≡◌, ◌↔◌, IfOk, IsTrue};
ghost use Rattle.csv.specs.Records.{fields_of};
ghost use Rattle.df_ticks.specs.Refusing.{HasTwo, fields_of_two};
ghost use Rattle.df_ticks.specs.TickFile.{header, tick_of, tick_of_two};

use crate::tick::Tick;
use csv::ByteRecord;
use df_memory::NoMemory;
use df_records::{Form, field, is_symbol, number, symbol};
use std::alloc::Global;

/// The fields of a record with two.
#[derive(Clone, Copy)]
struct Two<'a> {
    pub symbol: &'a [u8],
    pub price: &'a [u8],
}

/// The fields of a record, if it has two.
fn two_fields(row: &ByteRecord) -> Option<Two<'_>>
    ensures { HasTwo (fields_of row.now) result }
{
    if row.len() != 2 {
        return None;
    }
    Some(Two {
        symbol: field(row, 0),
        price: field(row, 1),
    })
}

/// The tick of a record, if it is in form.
fn read_tick(alloc: Global, row: &ByteRecord) -> Result<Option<Tick>, NoMemory>
    ensures { IfOk result (λ t. t ≡ tick_of (fields_of row.now)) }
{
    match two_fields(row) {
        Some(two) => tick_of_two(alloc, two.symbol, two.price),
        None => Ok(None),
    }
}

fn tick_of_two(alloc: Global, name: &[u8], price: &[u8]) -> Result<Option<Tick>, NoMemory>
    ensures { IfOk result (λ t. t ≡ tick_of_two name.now price.now) }
{
    if !is_symbol(name) {
        return Ok(None);
    }
    let Some(price) = number(price, 1, 1_000_000_000) else {
        return Ok(None);
    };
    Ok(Some(Tick {
        symbol: symbol(alloc, name)?,
        price: i64::from(price),
    }))
}

/// Whether the fields are the names of the columns.
fn names_columns(two: &Two<'_>) -> bool
    ensures { IsTrue result ↔ (fields_of_two two.now ≡ header) }
{
    two.symbol == b"symbol".as_slice() && two.price == b"price".as_slice()
}

/// Files of ticks.
pub(crate) struct TickForm;

impl Form<Tick> for TickForm {
    ghost use Rattle.df_ticks.specs.TickFile.{header, tick_of};

    ghost header = { header };

    ghost told_of = { tick_of };

    fn is_header(row: &ByteRecord) -> bool {
        match two_fields(row) {
            Some(two) => names_columns(&two),
            None => false,
        }
    }

    fn read(alloc: Global, row: &ByteRecord) -> Result<Option<Tick>, NoMemory> {
        read_tick(alloc, row)
    }
}
