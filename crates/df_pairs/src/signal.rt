ghost use Rattle.std.specs.Prelude.{◌≡◌, ◌↔◌, IsTrue};

/// The prices of two symbols part: the side is 1 where the first is too dear, and -1 where the
/// second is.
#[derive(Clone, Copy, Debug)]
pub struct Signal {
    pub side: i64,
    pub first: i64,
    pub second: i64,
}

impl Signal {
    pub fn copy(&self) -> Signal
        ensures { result ≡ self.now }
    {
        *self
    }

    /// Whether the two signals are equal in every field.
    pub fn same(&self, other: &Signal) -> bool
        ensures { IsTrue result ↔ (self.now ≡ other.now) }
    {
        self.side == other.side && self.first == other.first && self.second == other.second
    }
}
