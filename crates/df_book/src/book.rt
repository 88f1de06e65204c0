//! The book: resting orders, and what an order does to them.

ghost use Rattle.std.specs.Prelude.{◌≡◌, ◌↔◌, ◌≤ℤ◌, [], pos, IsTrue, IfOk, OnOk, OnErr};
ghost use Rattle.df_book.specs.Submitting.{submitted};

use crate::compare::same_in_order;
use crate::order::Order;
use crate::place::Span;
use crate::resting::{plan, rest, settle};
use crate::trade::Trade;
use crate::tree::Tree;
use df_memory::NoMemory;
use std::alloc::Global;
use std::marker::Model;

/// The resting orders of all symbols, each with what is left of it, in order of arrival.
#[derive(Drop)]
pub struct Book {
    orders: Tree,
    /// How many orders have come to rest.
    arrivals: u64,
    alloc: Global,
}

impl Model for Book {
    ghost use Rattle.std.specs.Prelude.{List};
    ghost use Rattle.std.specs.Map.{values_of};
    ghost use Rattle.df_book.specs.declared.order.Order.{Order};
    ghost use Rattle.df_book.specs.code.Places.{by_arrival, IsInOrder};
    ghost use Rattle.df_book.specs.code.Trees.{IsByPlace};

    ghost Value = { List Order };

    ghost view = { λ b. values_of (by_arrival b.orders) };

    ghost invariant = { λ b. IsByPlace b.orders × IsInOrder 0 b.arrivals (by_arrival b.orders) };
}

impl Book {
    /// A book in which no order rests. Takes no memory.
    pub fn new(alloc: Global) -> Book
        ensures { result ≡ [] }
    {
        Book {
            orders: Tree::new(),
            arrivals: 0,
            alloc,
        }
    }

    /// An order comes: its trades, in order. What is left of it rests. By design, and not by a
    /// clause, it takes logarithmic time for itself and for each of its trades.
    pub fn submit(&mut self, order: Order) -> Result<Vec<Trade>, NoMemory>
        requires limit { pos 1 ≤ℤ order.limit }
        requires qty { pos 1 ≤ℤ order.qty }
        ensures trades { IfOk result (λ v. v.items ≡ (submitted order self.old).trades) }
        ensures rests { OnOk result (self.new ≡ (submitted order self.old).resting) }
        ensures unchanged { OnErr result (self.new ≡ self.old) }
    {
        let span = Span::of(self.alloc, &order)?;
        let plan = plan(self.alloc, &self.orders, &order, &span)?;
        let orders = settle(
            self.alloc,
            &self.orders,
            &order,
            span.last,
            plan.fills.as_slice(),
        )?;
        let arrived = rest(self.alloc, orders, &order, plan.left, self.arrivals)?;
        self.orders = arrived.orders;
        self.arrivals = arrived.arrivals;
        Ok(plan.trades)
    }

    /// Whether the same orders rest, in the same order of arrival. Takes no memory.
    pub fn same(&self, other: &Book) -> bool
        ensures { IsTrue result ↔ (self.now ≡ other.now) }
    {
        // What is read is known to fit its type.
        let _arrivals = self.arrivals;
        let _other_arrivals = other.arrivals;
        same_in_order(&self.orders, &other.orders)
    }

    /// Takes the same time however many orders rest.
    pub fn copy(&self) -> Result<Book, NoMemory>
        ensures { IfOk result (λ b. b ≡ self.now) }
    {
        Ok(Book {
            orders: self.orders.share()?,
            arrivals: self.arrivals,
            alloc: self.alloc,
        })
    }
}
