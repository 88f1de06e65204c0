ghost use Rattle.std.specs.Prelude.{◌≡◌};
ghost use Rattle.df_lines.specs.declared.fault.FileFault.TheVariants as fault;

use df_memory::NoMemory;
use std::alloc::{AllocError, AllocFailed};

/// Why reading a file stops, by a place in the bad line.
#[derive(Clone, Copy, Debug, PartialEq, Eq)]
pub enum FileFault {
    NoMemory,
    Bad(usize),
    TooLarge(usize),
}

impl From<NoMemory> for FileFault {
    ghost from_gives = { λ _ f. f ≡ fault.NoMemory };

    fn from(_error: NoMemory) -> FileFault {
        FileFault::NoMemory
    }
}

impl From<AllocError> for FileFault {
    ghost from_gives = { λ _ f. f ≡ fault.NoMemory };

    fn from(_error: AllocError) -> FileFault {
        FileFault::NoMemory
    }
}

impl<T: Drop> From<AllocFailed<T>> for FileFault {
    ghost from_gives = { λ _ f. f ≡ fault.NoMemory };

    fn from(_error: AllocFailed<T>) -> FileFault {
        FileFault::NoMemory
    }
}
