//! Why a line isn't read.
ghost use Rattle.std.specs.Prelude.{◌≡◌};
ghost use Rattle.df_journal_text.specs.code.Judging.{line_fault, value_fault};
ghost use Rattle.df_journal_text.specs.declared.line_fault.LineFault.TheVariants as fault;

use df_memory::NoMemory;
use df_value_text::{Fault, TextRefused};
use std::alloc::{AllocError, AllocFailed};

/// Why a line isn't read.
#[derive(Clone, Copy, Debug, PartialEq, Eq)]
pub enum LineFault {
    /// It isn't spelled as it should be.
    Syntax,
    /// What stands left of its value is well spelled, and the value passes a limit of freezing
    /// before a byte of it is bad.
    TooLarge,
    NoMemory,
}

impl From<Fault> for LineFault {
    ghost from_gives = { λ f e. e ≡ line_fault f };

    fn from(fault: Fault) -> LineFault {
        match fault {
            Fault::NoMemory => LineFault::NoMemory,
            Fault::Bad(_) | Fault::Low(_) => LineFault::Syntax,
        }
    }
}

impl From<TextRefused> for LineFault {
    ghost from_gives = { λ r e. e ≡ value_fault r };

    fn from(refused: TextRefused) -> LineFault {
        match refused {
            TextRefused::NoMemory => LineFault::NoMemory,
            TextRefused::Syntax { .. } => LineFault::Syntax,
            TextRefused::TooLarge { .. } => LineFault::TooLarge,
        }
    }
}

impl From<NoMemory> for LineFault {
    ghost from_gives = { λ _ e. e ≡ fault.NoMemory };

    fn from(_error: NoMemory) -> LineFault {
        LineFault::NoMemory
    }
}

impl From<AllocError> for LineFault {
    ghost from_gives = { λ _ e. e ≡ fault.NoMemory };

    fn from(_error: AllocError) -> LineFault {
        LineFault::NoMemory
    }
}

impl<T: Drop> From<AllocFailed<T>> for LineFault {
    ghost from_gives = { λ _ e. e ≡ fault.NoMemory };

    fn from(_error: AllocFailed<T>) -> LineFault {
        LineFault::NoMemory
    }
}
