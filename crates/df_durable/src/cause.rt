//! Why a kept journal was not opened, and why a step was not made.
ghost use Rattle.std.specs.Prelude.{◌≡◌};
ghost use Rattle.df_durable.specs.declared.cause.NotKept.TheVariants as kept;
ghost use Rattle.df_durable.specs.declared.cause.OpenCause.TheVariants as open_cause;

use df_memory::NoMemory;
use df_unit::Call;

/// Why a disk was not opened.
#[derive(Clone, Copy, Debug, PartialEq, Eq)]
pub enum OpenCause {
    DiskFault,
    /// The image isn't empty, and the record behind the gate at this place is the first that isn't
    /// whole or isn't what has to stand there.
    Damaged { at: u64 },
    NoMemory,
}

/// A disk that was not opened, or on which nothing was created.
#[derive(Drop)]
pub struct NotOpened<D: Drop> {
    pub disk: D,
    pub cause: OpenCause,
}

/// Why a step was not made.
#[derive(Clone, Copy, Debug, PartialEq, Eq)]
pub enum StepCause {
    /// An earlier step of this store failed. Nothing has changed.
    Closed,
    DiskFault,
    NoMemory,
}

/// A call that was not kept.
#[derive(Drop)]
pub struct StepRefused {
    pub call: Call,
    pub cause: StepCause,
}

/// Why a record was not put on a disk.
#[derive(Clone, Copy, Debug, PartialEq, Eq)]
pub enum NotKept {
    Fault,
    NoMemory,
}

impl From<NoMemory> for NotKept {
    ghost from_gives = { λ _ e. e ≡ kept.NoMemory };

    fn from(_error: NoMemory) -> NotKept {
        NotKept::NoMemory
    }
}

impl From<NoMemory> for OpenCause {
    ghost from_gives = { λ _ e. e ≡ open_cause.NoMemory };

    fn from(_error: NoMemory) -> OpenCause {
        OpenCause::NoMemory
    }
}
