ghost use Rattle.std.specs.Prelude.{◌≡◌, ◌↔◌, IsTrue, IfOk};

use df_memory::NoMemory;
use df_unit::Reply;

/// What a brain is told: that its unit starts, or the reply to the unit's last call.
#[derive(Drop)]
pub enum Last {
    Start,
    Reply(Reply),
}

impl Last {
    /// Whether the two tell the same, values by their plain content.
    pub fn same(&self, other: &Last) -> bool
        ensures { IsTrue result ↔ (self.now ≡ other.now) }
    {
        match (self, other) {
            (Last::Start, Last::Start) => true,
            (Last::Reply(a), Last::Reply(b)) => a.same(b),
            _ => false,
        }
    }

    pub fn copy(&self) -> Result<Last, NoMemory>
        ensures { IfOk result (λ l. l ≡ self.now) }
    {
        match self {
            Last::Start => Ok(Last::Start),
            Last::Reply(reply) => Ok(Last::Reply(reply.copy()?)),
        }
    }
}
