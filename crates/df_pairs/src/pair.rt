ghost use Rattle.std.specs.Prelude.{◌≡◌, ◌≤◌, ◌≤ℤ◌, pos, IfOk, IsTrue, ◌↔◌};
ghost use Rattle.df_pairs.specs.Divergence.{fresh, after, signal_of, with_spread, with_prices, priced};
ghost use Rattle.df_pairs.specs.Spreads.{IsSpread};

use crate::recent::Recent;
use crate::signal::Signal;
use df_memory::NoMemory;
use std::alloc::Global;
use std::marker::Model;

/// Two symbols whose prices are watched.
#[derive(Drop)]
pub struct Pair {
    recent: Recent,
    threshold: i64,
    first: Option<i64>,
    second: Option<i64>,
    side: i64,
}

impl Model for Pair {
    ghost use Rattle.df_pairs.specs.Divergence.{Watched};

    ghost Value = { Watched };

    ghost view = { λ p. record {
      window = p.recent.most;
      threshold = p.threshold;
      first = p.first;
      second = p.second;
      spreads = p.recent.spreads;
      side = p.side;
    } };
}

impl Pair {
    /// A pair that has seen no tick. It takes the memory of its window at once.
    pub fn new(alloc: Global, window: u32, threshold: i64) -> Result<Pair, NoMemory>
        requires window { 1 ≤ window }
        requires threshold { pos 0 ≤ℤ threshold }
        ensures { IfOk result (λ p. p ≡ fresh window threshold) }
    {
        Ok(Pair {
            recent: Recent::new(alloc, window)?,
            threshold,
            first: None,
            second: None,
            side: 0,
        })
    }

    /// A price of the first symbol, or else of the second. Takes no memory.
    pub fn tick(&mut self, first: bool, price: i64) -> Option<Signal>
        ensures remembers { self.new ≡ after self.old first price }
        ensures signals { result
            ≡ signal_of self.old.side self.new.side self.new.first self.new.second }
    {
        let old = self.side;
        self.set_price(first, price);
        self.compare();
        self.signal_from(old)
    }

    /// Whether the two remember the same.
    pub fn same(&self, other: &Pair) -> bool
        ensures { IsTrue result ↔ (self.now ≡ other.now) }
    {
        self.recent.same(&other.recent)
            && self.threshold == other.threshold
            && self.first == other.first
            && self.second == other.second
            && self.side == other.side
    }

    pub fn copy(&self) -> Result<Pair, NoMemory>
        ensures { IfOk result (λ p. p ≡ self.now) }
    {
        Ok(Pair {
            recent: self.recent.copy()?,
            threshold: self.threshold,
            first: self.first,
            second: self.second,
            side: self.side,
        })
    }

    fn set_price(&mut self, first: bool, price: i64)
        ensures { self.new ≡ priced self.old first price }
    {
        if first {
            self.first = Some(price);
        } else {
            self.second = Some(price);
        }
    }

    fn compare(&mut self)
        ensures { self.new ≡ with_prices self.old self.old.first self.old.second }
    {
        if let (Some(a), Some(b)) = (self.first, self.second) {
            self.take_spread(i128::from(a) - i128::from(b));
        }
    }

    fn take_spread(&mut self, spread: i128)
        requires { IsSpread spread }
        ensures { self.new ≡ with_spread self.old spread }
    {
        self.side = self.next_side(spread);
        self.recent.push(spread);
    }

    fn next_side(&self, spread: i128) -> i64
        requires { IsSpread spread }
        ensures { result ≡ next_side self.now.window self.now.threshold self.now.side
            self.now.spreads spread }
    {
        if self.recent.is_short() {
            return self.side;
        }
        side_of(
            self.recent.times(self.threshold),
            self.recent.deviation(spread),
        )
    }

    fn signal_from(&self, old: i64) -> Option<Signal>
        ensures { result ≡ signal_of old self.now.side self.now.first self.now.second }
    {
        if self.side == 0 || self.side == old {
            return None;
        }
        let (Some(first), Some(second)) = (self.first, self.second) else {
            return None;
        };
        Some(Signal {
            side: self.side,
            first,
            second,
        })
    }
}

ghost use Rattle.std.specs.Prelude.{◌^◌, unsigned_abs};
ghost use Rattle.df_pairs.specs.Divergence.{next_side, side_of};

/// The side of a deviation.
fn side_of(limit: i128, deviation: i128) -> i64
    requires { unsigned_abs deviation ≤ 2 ^ 97 }
    ensures { result ≡ side_of limit deviation }
{
    if deviation > limit {
        1
    } else if -deviation > limit {
        -1
    } else {
        0
    }
}
