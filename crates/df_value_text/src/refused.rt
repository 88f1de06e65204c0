//! Why a literal isn't read.
ghost use Rattle.std.specs.Prelude.{◌≡◌};
ghost use Rattle.df_value_text.specs.code.Answer.{refusal, told};
ghost use Rattle.df_value_text.specs.declared.refused.Fault.TheVariants as fault;

use df_memory::NoMemory;
use std::alloc::{AllocError, AllocFailed};

/// Why a literal isn't read.
#[derive(Clone, Copy, Debug, PartialEq, Eq)]
pub enum TextRefused {
    /// With the byte at this place no literal can go on, or a name or a tag stands there that isn't
    /// above the one before it.
    Syntax { offset: usize },
    /// The byte at this place passes a limit of freezing.
    TooLarge { offset: usize },
    NoMemory,
}

/// Why reading stopped, for readers that are part of another.
#[derive(Clone, Copy, Debug, PartialEq, Eq)]
pub enum Fault {
    NoMemory,
    /// With the byte at this place nothing goes on.
    Bad(usize),
    /// What stands at this place isn't above what stands before it.
    Low(usize),
}

impl From<AllocError> for Fault {
    ghost from_gives = { λ e f. f ≡ fault.NoMemory };

    fn from(_error: AllocError) -> Fault {
        Fault::NoMemory
    }
}

impl<T: Drop> From<AllocFailed<T>> for Fault {
    ghost from_gives = { λ e f. f ≡ fault.NoMemory };

    fn from(_error: AllocFailed<T>) -> Fault {
        Fault::NoMemory
    }
}

impl From<NoMemory> for Fault {
    ghost from_gives = { λ e f. f ≡ fault.NoMemory };

    fn from(_error: NoMemory) -> Fault {
        Fault::NoMemory
    }
}

impl From<Fault> for TextRefused {
    ghost from_gives = { λ f e. e ≡ refusal f };

    fn from(fault: Fault) -> TextRefused {
        match fault {
            Fault::NoMemory => TextRefused::NoMemory,
            Fault::Bad(offset) => TextRefused::Syntax { offset },
            Fault::Low(offset) => TextRefused::Syntax { offset },
        }
    }
}

/// The answer as callers are told it.
pub(crate) fn told<X>(read: Result<(X, usize), Fault>) -> Result<(X, usize), TextRefused>
    ensures { result ≡ told read }
{
    match read {
        Ok(found) => Ok(found),
        Err(fault) => Err(TextRefused::from(fault)),
    }
}
