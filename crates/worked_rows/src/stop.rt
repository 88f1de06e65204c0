use std::alloc::{AllocError, AllocFailed};
use std::io;

/// Why the tables aren't run to their end.
#[derive(Clone, Copy, Debug)]
pub enum Stop {
    NoMemory,
    /// What was found can't be printed.
    NoPrint,
    /// A file of the tables can't be read, as was told.
    NoFile,
    /// This line of the table isn't in form.
    Line(usize),
    /// A word of a run isn't text.
    Word,
}

impl From<AllocError> for Stop {
    fn from(_error: AllocError) -> Stop {
        Stop::NoMemory
    }
}

impl<T: Drop> From<AllocFailed<T>> for Stop {
    fn from(_error: AllocFailed<T>) -> Stop {
        Stop::NoMemory
    }
}

impl From<df_memory::NoMemory> for Stop {
    fn from(_error: df_memory::NoMemory) -> Stop {
        Stop::NoMemory
    }
}

impl From<io::Error> for Stop {
    fn from(_error: io::Error) -> Stop {
        Stop::NoPrint
    }
}
