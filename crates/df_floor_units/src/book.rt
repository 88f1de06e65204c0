//! The book of a floor: each order that rests is one that a message can have.

ghost use Rattle.std.specs.Prelude.{◌≡◌, ◌↔◌, ◌≤ℤ◌, [], pos, IsTrue, IfOk, OnErr, OnOk};
ghost use Rattle.df_book.specs.Submitting.{submitted};
ghost use Rattle.df_floor_units.specs.code.Trades.{IsFloorOrder};

use crate::trades::FloorTrades;
use df_book::{Book, Order};
use df_memory::NoMemory;
use std::alloc::Global;
use std::marker::Model;

/// A book of orders of the floor's traders, each of a symbol as in a tick file.
#[derive(Drop)]
pub(crate) struct FloorBook {
    book: Book,
}

impl Model for FloorBook {
    ghost use Rattle.std.specs.Prelude.{All, List};
    ghost use Rattle.df_book.specs.declared.order.Order.{Order};
    ghost use Rattle.df_floor_units.specs.code.Trades.{IsFloorOrder};

    ghost Value = { List Order };

    ghost view = { λ b. b.book };

    ghost invariant = { λ b. All IsFloorOrder b.book };
}

impl FloorBook {
    pub(crate) fn new(alloc: Global) -> FloorBook
        ensures { result ≡ [] }
    {
        FloorBook {
            book: Book::new(alloc),
        }
    }

    /// An order comes.
    pub(crate) fn submit(&mut self, order: Order) -> Result<FloorTrades, NoMemory>
        requires limit { pos 1 ≤ℤ order.limit }
        requires qty { pos 1 ≤ℤ order.qty }
        requires of_floor { IsFloorOrder order }
        ensures trades { IfOk result (λ t. t ≡ (submitted order self.old).trades) }
        ensures rests { OnOk result (self.new ≡ (submitted order self.old).resting) }
        ensures unchanged { OnErr result (self.new ≡ self.old) }
    {
        let trades = self.book.submit(order)?;
        Ok(FloorTrades::new(trades))
    }

    pub(crate) fn same(&self, other: &FloorBook) -> bool
        ensures { IsTrue result ↔ (self.now ≡ other.now) }
    {
        self.book.same(&other.book)
    }

    pub(crate) fn copy(&self) -> Result<FloorBook, NoMemory>
        ensures { IfOk result (λ b. b ≡ self.now) }
    {
        let book = self.book.copy()?;
        Ok(FloorBook { book })
    }
}
