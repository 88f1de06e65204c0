//! What a unit is to be handed. Deliveries are staged first, with all the memory that they need,
//! and settled later without any.

ghost use Rattle.std.specs.Prelude.{◌≡◌, [], OnOk, OnErr, length, slice_get, drop, option_copied};
ghost use Rattle.df_unit.specs.Rows.{is_nil};
ghost use Rattle.df_tables.specs.Line.{quiet, settled, staged_more};

use df_memory::NoMemory;
use df_unit::Given;
use std::alloc::Global;
use std::collections::VecDeque;
use std::marker::Model;

/// The deliveries that are left, and behind them those about to be.
#[derive(Drop)]
pub struct Line {
    deliveries: VecDeque<Given>,
    /// How many are left.
    left: usize,
}

impl Model for Line {
    ghost use Rattle.std.specs.Prelude.{◌≤◌, length, drop, take};
    ghost use Rattle.df_tables.specs.Line.{LineState, line_code};

    ghost Value = { LineState };

    ghost coded = { line_code };

    ghost view = { λ a. record {
      left = take a.left a.deliveries.items;
      staged = drop a.left a.deliveries.items;
    } };

    ghost invariant = { λ a. a.left ≤ length a.deliveries.items };
}

impl Line {
    /// Takes no memory.
    pub fn new(alloc: Global) -> Line
        ensures { result ≡ record { left = []; staged = [] } }
    {
        Line {
            deliveries: VecDeque::new(alloc),
            left: 0,
        }
    }

    /// The first delivery that is left.
    pub fn first(&self) -> Option<&Given>
        ensures { option_copied result ≡ slice_get self.now.left 0 }
    {
        if self.left == 0 {
            return None;
        }
        self.deliveries.front()
    }

    /// Whether no delivery is left.
    pub fn is_empty(&self) -> bool
        ensures { result ≡ is_nil self.now.left }
    {
        self.left == 0
    }

    /// How many deliveries are left.
    pub fn len(&self) -> usize
        ensures { result ≡ length self.now.left }
    {
        self.left
    }

    /// Takes the first delivery that is left.
    pub fn pop(&mut self) -> Option<Given>
        ensures first { result ≡ slice_get self.old.left 0 }
        ensures left { self.new ≡ record self.old { left = drop 1 self.old.left } }
    {
        if self.left == 0 {
            return None;
        }
        self.left -= 1;
        self.deliveries.pop_front()
    }

    /// Makes one more ready, with all the memory that it needs.
    #[inline(always)]
    pub fn stage(&mut self, given: Given) -> Result<(), NoMemory>
        ensures ok { OnOk result (self.new ≡ staged_more given self.old) }
        ensures unchanged { OnErr result (self.new ≡ self.old) }
    {
        self.deliveries.reserve(1)?;
        self.deliveries.push_back_reserved(given);
        Ok(())
    }

    /// Hands over what is ready. Takes no memory.
    pub fn settle(&mut self)
        ensures { self.new ≡ settled self.old }
    {
        self.left = self.deliveries.len();
    }

    /// Lets go what is ready.
    pub fn quiet(&mut self)
        ensures { self.new ≡ quiet self.old }
    {
        self.deliveries.truncate(self.left);
    }
}
