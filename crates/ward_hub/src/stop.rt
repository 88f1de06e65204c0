//! Why the program stops before its end.

use df_lines::FileRefused;
use df_memory::NoMemory;
use std::alloc::AllocError;
use std::fmt;

#[derive(Clone, Copy, Debug, PartialEq, Eq)]
pub(crate) enum Stop {
    NoMemory,
    /// The journal's text isn't one that a reader takes.
    Text,
    Output,
}

impl fmt::Display for Stop {
    fn fmt<W: fmt::Write>(&self, f: &mut fmt::Formatter<W>) -> fmt::Result {
        f.write_str(match self {
            Stop::NoMemory => "no memory",
            Stop::Text => "the journal can't be read",
            Stop::Output => "write fault",
        })
    }
}

impl From<NoMemory> for Stop {
    fn from(_error: NoMemory) -> Stop {
        Stop::NoMemory
    }
}

impl From<AllocError> for Stop {
    fn from(_error: AllocError) -> Stop {
        Stop::NoMemory
    }
}

impl From<FileRefused> for Stop {
    fn from(refused: FileRefused) -> Stop {
        match refused {
            FileRefused::NoMemory => Stop::NoMemory,
            _ => Stop::Text,
        }
    }
}
