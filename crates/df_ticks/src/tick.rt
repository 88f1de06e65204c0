ghost use Rattle.std.specs.Prelude.{◌≡◌, ◌↔◌, IsTrue, IfOk};

use df_frozen::Words;
use df_memory::NoMemory;

/// A price of a symbol, in hundredths.
#[derive(Drop)]
pub struct Tick {
    pub symbol: Words,
    pub price: i64,
}

impl Tick {
    /// Whether the two ticks are equal in both fields.
    pub fn same(&self, other: &Tick) -> bool
        ensures { IsTrue result ↔ (self.now ≡ other.now) }
    {
        self.symbol.as_str() == other.symbol.as_str() && self.price == other.price
    }

    pub fn copy(&self) -> Result<Tick, NoMemory>
        ensures { IfOk result (λ t. t ≡ self.now) }
    {
        Ok(Tick {
            symbol: self.symbol.copy()?,
            price: self.price,
        })
    }
}
