ghost use Rattle.std.specs.Prelude.{◌≡◌, ◌^◌, ◌<◌, length};

use df_label::{Label, Privileges};
use std::marker::Model;

/// What a root begins with: one label, which is its input label, its output label and its first
/// contamination, and its privileges.
#[derive(Drop)]
pub struct RootStart {
    pub label: Label,
    pub privileges: Privileges,
}

/// What each root begins with, root 0 first.
#[derive(Drop)]
pub struct Start {
    roots: Vec<RootStart>,
}

impl Model for Start {
    ghost use Rattle.std.specs.Prelude.{List, ◌<◌, ◌^◌, length};
    ghost use Rattle.df_start.specs.declared.start.RootStart.{RootStart};

    ghost Value = { List RootStart };

    ghost view = { λ s. s.roots.items };

    ghost invariant = { λ s. length s.roots.items < 2 ^ 32 };
}

impl Start {
    /// Takes no memory.
    pub fn new(roots: Vec<RootStart>) -> Start
        requires { length roots.items < 2 ^ 32 }
        ensures { result ≡ roots.items }
    {
        Start { roots }
    }

    pub fn as_slice(&self) -> &[RootStart]
        ensures roots { result.now ≡ self.now }
        ensures few { length self.now < 2 ^ 32 }
    {
        self.roots.as_slice()
    }
}
