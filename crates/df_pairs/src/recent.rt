//! The last spreads, and their sum.

ghost use Rattle.std.specs.Prelude.{◌≡◌, ◌<◌, ◌≤◌, ◌∷◌, [], ◌-◌, ◌*ℤ◌, ◌-ℤ◌, pos, length, take, nat_lt, IfOk, IsTrue, ◌↔◌, unsigned_abs, ◌^◌};
ghost use Rattle.df_pairs.specs.Divergence.{total};
ghost use Rattle.df_pairs.specs.Spreads.{IsSpread};

use df_memory::NoMemory;
use std::alloc::Global;
use std::collections::VecDeque;
use std::marker::Model;

/// The last spreads of a window, at most so many, with their sum beside them.
#[derive(Drop)]
pub(crate) struct Recent {
    newest_first: VecDeque<i128>,
    sum: i128,
    window: u32,
}

impl Model for Recent {
    ghost use Rattle.df_pairs.specs.Spreads.{Window};

    ghost Value = { Window };

    ghost use Rattle.df_pairs.specs.Spreads.{IsSummed};

    ghost view = { λ r. record { most = r.window; spreads = r.newest_first.items } };

    ghost invariant = { λ r. IsSummed r.newest_first r.sum r.window };
}

impl Recent {
    pub(crate) fn new(alloc: Global, window: u32) -> Result<Recent, NoMemory>
        requires { 1 ≤ window }
        ensures { IfOk result (λ r. r ≡ record { most = window; spreads = [] }) }
    {
        Ok(Recent {
            newest_first: VecDeque::with_capacity(alloc, window as usize)?,
            sum: 0,
            window,
        })
    }

    /// Whether there are fewer than the window holds.
    pub(crate) fn is_short(&self) -> bool
        ensures { result ≡ nat_lt (length self.now.spreads) self.now.most }
    {
        self.newest_first.len() < self.window as usize
    }

    /// By how much a spread, as often as the window is long, is over the sum.
    pub(crate) fn deviation(&self, spread: i128) -> i128
        requires { IsSpread spread }
        ensures exact { result ≡ (pos self.now.most *ℤ spread) -ℤ total self.now.spreads }
        ensures small { unsigned_abs result ≤ 2 ^ 97 }
    {
        i128::from(self.window) * spread - self.sum
    }

    /// The window times a threshold.
    pub(crate) fn times(&self, threshold: i64) -> i128
        ensures { result ≡ pos self.now.most *ℤ threshold }
    {
        i128::from(self.window) * i128::from(threshold)
    }

    /// A spread comes, and where the window is full its oldest goes.
    pub(crate) fn push(&mut self, spread: i128)
        requires { IsSpread spread }
        ensures { self.new ≡ record self.old {
          spreads = take self.old.most (spread ∷ self.old.spreads);
        } }
    {
        self.make_room();
        self.newest_first.push_front_reserved(spread);
        self.sum += spread;
    }

    /// Where the window is full, the oldest spread goes.
    fn make_room(&mut self)
        ensures { self.new ≡ record self.old {
          spreads = take (self.old.most - 1) self.old.spreads;
        } }
    {
        if self.is_short() {
            return;
        }
        if let Some(oldest) = self.newest_first.pop_back() {
            self.sum -= oldest;
        }
    }

    /// Whether the two hold the same spreads of the same window.
    pub(crate) fn same(&self, other: &Recent) -> bool
        ensures { IsTrue result ↔ (self.now ≡ other.now) }
    {
        self.window == other.window && self.newest_first == other.newest_first
    }

    pub(crate) fn copy(&self) -> Result<Recent, NoMemory>
        ensures { IfOk result (λ r. r ≡ self.now) }
    {
        Ok(Recent {
            newest_first: copied(&self.newest_first, self.window)?,
            sum: self.sum,
            window: self.window,
        })
    }
}

ghost use Rattle.std.specs.VecDeque.{deque_len, deque_capacity};

/// A copy with room for a whole window.
fn copied(from: &VecDeque<i128>, window: u32) -> Result<VecDeque<i128>, NoMemory>
    requires fits { deque_len from.now ≤ window }
    requires long { deque_len from.now ≡ length from.now.items }
    ensures items { IfOk result (λ q. q.items ≡ from.now.items) }
    ensures len { IfOk result (λ q. deque_len q ≡ deque_len from.now) }
    ensures room { IfOk result (λ q. window ≤ deque_capacity q) }
{
    let mut to = VecDeque::with_capacity(*from.allocator(), window as usize)?;
    for i in 0..from.len() {
        to.push_back_reserved(from[i]);
    }
    Ok(to)
}
