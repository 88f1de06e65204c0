ghost use Rattle.std.specs.Prelude.{◌≡◌, ◌↔◌, IsTrue};

use df_unit::Call;

/// What a brain wants.
#[derive(Drop)]
pub enum Want {
    Call(Call),
    /// A get, once there is a delivery.
    Wait,
}

impl Want {
    /// Whether the two want the same, values by their plain content.
    pub fn same(&self, other: &Want) -> bool
        ensures { IsTrue result ↔ (self.now ≡ other.now) }
    {
        match (self, other) {
            (Want::Call(a), Want::Call(b)) => a.same(b),
            (Want::Wait, Want::Wait) => true,
            _ => false,
        }
    }
}
