//! What came of steps.

ghost use Rattle.std.specs.Prelude.{◌≡◌};
ghost use Rattle.df_workers.specs.code.Came.{came_then, is_over};

/// What came of steps, one after another or by several workers.
#[derive(Clone, Copy, Debug, PartialEq, Eq)]
pub(crate) enum Came {
    /// None appended an entry.
    Still,
    /// Some appended entries.
    Moved,
    /// The journal has as many entries as it may have.
    Full,
    /// There was no memory for one.
    NoMemory,
}

impl Came {
    /// What came of these steps and of others.
    pub(crate) fn then(self, other: Came) -> Came
        ensures { result ≡ came_then self other }
    {
        match (self, other) {
            (Came::NoMemory, _) | (_, Came::NoMemory) => Came::NoMemory,
            (Came::Full, _) | (_, Came::Full) => Came::Full,
            (Came::Moved, _) | (_, Came::Moved) => Came::Moved,
            (Came::Still, Came::Still) => Came::Still,
        }
    }

    /// Whether no further step is to be made.
    pub(crate) fn is_over(self) -> bool
        ensures { result ≡ is_over self }
    {
        match self {
            Came::Still | Came::Moved => false,
            Came::Full | Came::NoMemory => true,
        }
    }
}
