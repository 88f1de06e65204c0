use std::marker::Model;

/// A list of numbers of pairs, from 0.
#[derive(Drop)]
pub struct PairNumbers {
    numbers: Vec<u32>,
}

impl Model for PairNumbers {
    ghost use Rattle.std.specs.Prelude.{ℕ, List};

    ghost Value = { List ℕ };

    ghost view = { λ p. p.numbers.items };
}

impl PairNumbers {
    ghost use Rattle.std.specs.Prelude.{◌≡◌};

    /// Takes no memory.
    pub fn new(numbers: Vec<u32>) -> PairNumbers
        ensures { result ≡ numbers.items }
    {
        PairNumbers { numbers }
    }

    pub fn as_slice(&self) -> &[u32]
        ensures { result.now ≡ self.now }
    {
        self.numbers.as_slice()
    }
}
