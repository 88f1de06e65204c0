//! Reading an order file.

ghost use Rattle.std.specs.Prelude.{◌<◌, All, IfErr, IfOk, length};
ghost use Rattle.df_auction.specs.OrderFile.{IsOrderFile};
ghost use Rattle.df_auction.specs.Refusing.{IsRightRefusal};
ghost use Rattle.df_auction.specs.Stairs.{IsInRange};

use crate::record::OrderForm;
use df_book::Order;
use df_memory::NoMemory;
use df_records::{RecordsRefused, read_records};
use std::alloc::Global;
use std::error::Error;
use std::fmt;

/// Why a file of orders isn't read.
#[derive(Debug, Drop)]
pub enum OrdersRefused {
    /// The first record that isn't in form, by its number from 1.
    BadOrder { line: u64 },
    NoMemory,
}

impl fmt::Display for OrdersRefused {
    fn fmt<W: fmt::Write>(&self, f: &mut fmt::Formatter<W>) -> fmt::Result {
        match self {
            OrdersRefused::BadOrder { line } => write!(f, "record {line} is no order"),
            OrdersRefused::NoMemory => f.write_str("out of memory"),
        }
    }
}

impl Error for OrdersRefused {}

impl From<NoMemory> for OrdersRefused {
    ghost use Rattle.std.specs.Prelude.{◌≡◌};
    ghost use Rattle.df_auction.specs.declared.orders.OrdersRefused.TheVariants as refused;

    ghost from_gives = { λ _ r. r ≡ refused.NoMemory };

    fn from(_error: NoMemory) -> OrdersRefused {
        OrdersRefused::NoMemory
    }
}

/// The orders of a file: a header, and then a record for each.
pub fn read_orders(alloc: Global, bytes: &[u8]) -> Result<Vec<Order>, OrdersRefused>
    ensures read { IfOk result (λ v. IsOrderFile bytes.now v.items) }
    ensures in_range { IfOk result (λ v. All IsInRange v.items) }
    ensures few { IfOk result (λ v. length v.items < length bytes.now) }
    ensures refused { IfErr result (IsRightRefusal bytes.now) }
{
    match read_records::<Order, OrderForm>(alloc, bytes) {
        Ok(orders) => Ok(orders),
        Err(RecordsRefused::BadRecord { line }) => Err(OrdersRefused::BadOrder { line }),
        Err(RecordsRefused::NoMemory) => Err(OrdersRefused::NoMemory),
    }
}
