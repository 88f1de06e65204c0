ghost use Rattle.std.specs.Prelude.{◌≡◌, IfOk};

use df_memory::NoMemory;
use std::marker::Model;

/// Subscriptions: the place of a unit, and the number that it gave the subscription.
#[derive(Drop)]
pub struct Receivers {
    pairs: Vec<(usize, u32)>,
}

impl Model for Receivers {
    ghost use Rattle.std.specs.Prelude.{ℕ, List};

    ghost Value = { List (ℕ × ℕ) };

    ghost view = { λ r. r.pairs.items };
}

impl Receivers {
    /// Takes no memory.
    pub fn new(pairs: Vec<(usize, u32)>) -> Receivers
        ensures { result ≡ pairs.items }
    {
        Receivers { pairs }
    }

    pub fn as_slice(&self) -> &[(usize, u32)]
        ensures { result.now ≡ self.now }
    {
        self.pairs.as_slice()
    }

    pub(crate) fn into_pairs(self) -> Vec<(usize, u32)>
        ensures { result.items ≡ self }
    {
        self.pairs
    }

    pub fn copy(&self) -> Result<Receivers, NoMemory>
        ensures { IfOk result (λ r. r ≡ self.now) }
    {
        let alloc = *self.pairs.allocator();
        Ok(Receivers {
            pairs: Vec::from_slice(alloc, self.pairs.as_slice())?,
        })
    }
}
