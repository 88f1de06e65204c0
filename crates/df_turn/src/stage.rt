//! What a brain does next in a turn.

ghost use Rattle.std.specs.Prelude.{◌≡◌};
ghost use Rattle.df_turn.specs.code.Going.{goes_on};

use df_brain::{Last, Want};
use df_local_run::is_local;

/// What a brain does next in a turn.
#[derive(Drop)]
pub enum Stage {
    /// It is told this.
    Told(Last),
    /// It is told the reply to the newest call.
    Answered,
    /// It was asked, and wants this, which is not made yet.
    Wants(Want),
}

impl Stage {
    /// Whether the turn can go on: the brain is to be asked, or a local call is to be made.
    pub(crate) fn goes_on(&self) -> bool
        ensures { result ≡ goes_on self.now }
    {
        match self {
            Stage::Told(_) | Stage::Answered => true,
            Stage::Wants(Want::Call(call)) => is_local(call),
            Stage::Wants(Want::Wait) => false,
        }
    }
}
