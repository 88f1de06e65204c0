ghost use Rattle.std.specs.Prelude.{◌≡◌, ◌↔◌, false, IsTrue, IfOk, OnErr};
ghost use Rattle.df_rules.specs.Follows.{Last};
ghost use Rattle.df_brain.specs.Brain.{is_child_wanted, last_of, want_of};

use crate::{Last, Want};
use df_memory::NoMemory;
use df_rules::StepFunction;

/// What a unit does by itself: a step function, in the state in which it is now.
pub trait Brain: StepFunction + Drop {
    /// What the unit wants next.
    fn next(&mut self, last: &Last) -> Result<Want, NoMemory>
        ensures wants { IfOk result (λ w.
            (want_of w, self.new) ≡ Self.next self.old (last_of last.now)) }
        ensures unchanged { OnErr result (self.new ≡ self.old) };

    /// The brain of the instances of a managed subscription. It is asked of the owner's, right
    /// after the `next` that wanted the subscription.
    fn instance(&self, sub: u32) -> Result<Self, NoMemory>
        ensures { IfOk result (λ b. b ≡ Self.instance self.now sub) };

    fn copy(&self) -> Result<Self, NoMemory>
        ensures { IfOk result (λ b. b ≡ self.now) };

    /// Whether the two are in one state.
    fn same(&self, other: &Self) -> bool
        ensures { IsTrue result ↔ (self.now ≡ other.now) };

    // It never wants to make a unit.
    ghost makes_no_unit: { (b : Self) (l : Last) → is_child_wanted (Self.next b l).0 ≡ false };
}
