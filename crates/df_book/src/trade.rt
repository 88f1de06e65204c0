ghost use Rattle.std.specs.Prelude.{◌≡◌, ◌↔◌, IsTrue, IfOk};

use df_frozen::Words;
use df_memory::NoMemory;
use std::marker::Model;

/// A quantity of a symbol that one trader sold to another at a price.
#[derive(Drop)]
pub struct Trade {
    pub price: i64,
    pub qty: i64,
    pub symbol: Words,
    pub buyer: u32,
    pub seller: u32,
}

impl Trade {
    /// Whether the two trades are equal in every field.
    pub fn same(&self, other: &Trade) -> bool
        ensures { IsTrue result ↔ (self.now ≡ other.now) }
    {
        self.symbol.as_str() == other.symbol.as_str()
            && self.price == other.price
            && self.qty == other.qty
            && self.buyer == other.buyer
            && self.seller == other.seller
    }

    pub fn copy(&self) -> Result<Trade, NoMemory>
        ensures { IfOk result (λ t. t ≡ self.now) }
    {
        Ok(Trade {
            price: self.price,
            qty: self.qty,
            symbol: self.symbol.copy()?,
            buyer: self.buyer,
            seller: self.seller,
        })
    }
}

/// A list of trades.
#[derive(Drop)]
pub struct Trades {
    trades: Vec<Trade>,
}

impl Model for Trades {
    ghost use Rattle.std.specs.Prelude.{List};
    ghost use Rattle.std.specs.Coded.{coded_list};
    ghost use Rattle.df_book.specs.declared.trade.Trade.{Trade};
    ghost use Rattle.df_book.specs.contracts.trade.Trade as trade;

    ghost Value = { List Trade };

    ghost coded = { coded_list trade.the_row.coded };

    ghost view = { λ o. o.trades.items };
}

impl Trades {
    /// Takes no memory.
    pub fn new(trades: Vec<Trade>) -> Trades
        ensures { result ≡ trades.items }
    {
        Trades { trades }
    }

    pub fn as_slice(&self) -> &[Trade]
        ensures { result.now ≡ self.now }
    {
        self.trades.as_slice()
    }

    pub fn same(&self, other: &Trades) -> bool
        ensures { IsTrue result ↔ (self.now ≡ other.now) }
    {
        same_trades(self.as_slice(), other.as_slice())
    }

    pub fn copy(&self) -> Result<Trades, NoMemory>
        ensures { IfOk result (λ o. o ≡ self.now) }
    {
        let mut trades = Vec::new(*self.trades.allocator());
        for trade in self.trades.as_slice() {
            trades.push(trade.copy()?)?;
        }
        Ok(Trades { trades })
    }
}

fn same_trades(a: &[Trade], b: &[Trade]) -> bool
    ensures { IsTrue result ↔ (a.now ≡ b.now) }
{
    if a.len() != b.len() {
        return false;
    }
    for i in 0..a.len() {
        let is_same = a[i].same(&b[i]);
        if !is_same {
            return false;
        }
    }
    true
}
