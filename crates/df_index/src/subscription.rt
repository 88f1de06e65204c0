ghost use Rattle.std.specs.Prelude.{◌≡◌, IfOk};

use crate::Listed;
use df_memory::NoMemory;

/// A subscription of a unit that is named by its place in a list.
#[derive(Drop)]
pub struct Subscription<F> {
    pub unit: usize,
    /// The number that the unit gave it.
    pub sub: u32,
    pub filter: F,
}

impl<F: Listed> Subscription<F> {
    pub fn copy(&self) -> Result<Subscription<F>, NoMemory>
        ensures { IfOk result (λ s. s ≡ self.now) }
    {
        Ok(Subscription {
            unit: self.unit,
            sub: self.sub,
            filter: self.filter.copy()?,
        })
    }
}
