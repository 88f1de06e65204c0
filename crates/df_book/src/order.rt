ghost use Rattle.std.specs.Prelude.{◌≡◌, ◌↔◌, IsTrue, IfOk};

use df_frozen::Words;
use df_memory::NoMemory;
use std::marker::Model;

/// A purchase or a sale of a quantity of a symbol, by a trader, up to a limit or from one on.
#[derive(Drop)]
pub struct Order {
    pub id: i64,
    pub limit: i64,
    pub qty: i64,
    pub symbol: Words,
    pub trader: u32,
    pub sell: bool,
}

impl Order {
    /// Whether the two orders are equal in every field.
    pub fn same(&self, other: &Order) -> bool
        ensures { IsTrue result ↔ (self.now ≡ other.now) }
    {
        self.id == other.id
            && self.trader == other.trader
            && self.symbol.as_str() == other.symbol.as_str()
            && self.sell == other.sell
            && self.limit == other.limit
            && self.qty == other.qty
    }

    pub fn copy(&self) -> Result<Order, NoMemory>
        ensures { IfOk result (λ o. o ≡ self.now) }
    {
        Ok(Order {
            id: self.id,
            limit: self.limit,
            qty: self.qty,
            symbol: self.symbol.copy()?,
            trader: self.trader,
            sell: self.sell,
        })
    }
}

/// A list of orders.
#[derive(Drop)]
pub struct Orders {
    orders: Vec<Order>,
}

impl Model for Orders {
    ghost use Rattle.std.specs.Prelude.{List};
    ghost use Rattle.std.specs.Coded.{coded_list};
    ghost use Rattle.df_book.specs.declared.order.Order.{Order};
    ghost use Rattle.df_book.specs.contracts.order.Order as order;

    ghost Value = { List Order };

    ghost coded = { coded_list order.the_row.coded };

    ghost view = { λ o. o.orders.items };
}

impl Orders {
    /// Takes no memory.
    pub fn new(orders: Vec<Order>) -> Orders
        ensures { result ≡ orders.items }
    {
        Orders { orders }
    }

    pub fn as_slice(&self) -> &[Order]
        ensures { result.now ≡ self.now }
    {
        self.orders.as_slice()
    }

    pub fn same(&self, other: &Orders) -> bool
        ensures { IsTrue result ↔ (self.now ≡ other.now) }
    {
        same_orders(self.as_slice(), other.as_slice())
    }

    pub fn copy(&self) -> Result<Orders, NoMemory>
        ensures { IfOk result (λ o. o ≡ self.now) }
    {
        let mut orders = Vec::new(*self.orders.allocator());
        for order in self.orders.as_slice() {
            orders.push(order.copy()?)?;
        }
        Ok(Orders { orders })
    }
}

fn same_orders(a: &[Order], b: &[Order]) -> bool
    ensures { IsTrue result ↔ (a.now ≡ b.now) }
{
    if a.len() != b.len() {
        return false;
    }
    for i in 0..a.len() {
        let is_same = a[i].same(&b[i]);
        if !is_same {
            return false;
        }
    }
    true
}
