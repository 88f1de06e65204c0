//! Trades of a floor, each of which a message can have.

ghost use Rattle.std.specs.Prelude.{◌≡◌, ◌↔◌, All, IsTrue, IfOk, IfSome, length, option_copied, slice_get};
ghost use Rattle.df_floor_units.specs.code.Trades.{IsFloorTrade};

use df_book::{Trade, Trades};
use df_memory::NoMemory;
use std::marker::Model;

/// Trades of traders of the floor, each of a symbol as in a tick file.
#[derive(Drop)]
pub(crate) struct FloorTrades {
    trades: Trades,
}

impl Model for FloorTrades {
    ghost use Rattle.std.specs.Prelude.{All, List};
    ghost use Rattle.df_book.specs.declared.trade.Trade.{Trade};
    ghost use Rattle.df_floor_units.specs.code.Trades.{IsFloorTrade};

    ghost Value = { List Trade };

    ghost view = { λ t. t.trades };

    ghost invariant = { λ t. All IsFloorTrade t.trades };
}

impl FloorTrades {
    ghost use Rattle.df_floor_units.specs.Telling.{passed_place};

    pub(crate) fn new(trades: Vec<Trade>) -> FloorTrades
        requires { All IsFloorTrade trades.items }
        ensures { result ≡ trades.items }
    {
        FloorTrades {
            trades: Trades::new(trades),
        }
    }

    pub(crate) fn len(&self) -> usize
        ensures { result ≡ length self.now }
    {
        self.trades.as_slice().len()
    }

    /// The trade at a place.
    pub(crate) fn get(&self, place: usize) -> Option<&Trade>
        ensures trade { option_copied result ≡ slice_get self.now place }
        ensures of_floor { IfSome result (λ t. IsFloorTrade t.now) }
    {
        self.trades.as_slice().get(place)
    }

    /// The place behind one, up to the end.
    pub(crate) fn behind(&self, place: usize) -> usize
        ensures { result ≡ passed_place self.now place }
    {
        if place < self.len() { place + 1 } else { place }
    }

    pub(crate) fn same(&self, other: &FloorTrades) -> bool
        ensures { IsTrue result ↔ (self.now ≡ other.now) }
    {
        self.trades.same(&other.trades)
    }

    pub(crate) fn copy(&self) -> Result<FloorTrades, NoMemory>
        ensures { IfOk result (λ t. t ≡ self.now) }
    {
        let trades = self.trades.copy()?;
        Ok(FloorTrades { trades })
    }
}
