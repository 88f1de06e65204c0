ghost use Rattle.std.specs.Prelude.{◌≡◌, ◌↔◌, IsTrue, IfOk};

use crate::Symbol;
use df_memory::NoMemory;

/// The prices of two symbols have parted: the side is 1 where the first is too dear, and -1 where
/// the second is. Prices are in hundredths.
#[derive(Drop)]
pub struct Match {
    pub first: Symbol,
    pub second: Symbol,
    pub first_price: i64,
    pub second_price: i64,
    pub side: i64,
}

impl Match {
    /// Whether the two are equal in every field.
    pub fn same(&self, other: &Match) -> bool
        ensures { IsTrue result ↔ (self.now ≡ other.now) }
    {
        self.first.is(other.first.as_words())
            && self.second.is(other.second.as_words())
            && self.first_price == other.first_price
            && self.second_price == other.second_price
            && self.side == other.side
    }

    pub fn copy(&self) -> Result<Match, NoMemory>
        ensures { IfOk result (λ m. m ≡ self.now) }
    {
        Ok(Match {
            first: self.first.copy()?,
            second: self.second.copy()?,
            first_price: self.first_price,
            second_price: self.second_price,
            side: self.side,
        })
    }
}

/// An order as a trader tells it. Its trader, quantity and limit may be any numbers.
#[derive(Drop)]
pub struct Offer {
    pub id: i64,
    pub limit: i64,
    pub qty: i64,
    pub sell: bool,
    pub symbol: Symbol,
    pub trader: i64,
}

/// Who bought and who sold, by the numbers of the traders.
#[derive(Clone, Copy, Debug, PartialEq, Eq)]
pub struct Parties {
    pub buyer: i64,
    pub seller: i64,
}
