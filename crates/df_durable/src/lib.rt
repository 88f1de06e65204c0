//! A journal that outlives a crash.
#![tactic(auto)]

mod cause;
mod keeping;
mod opening;
mod stored;

pub use cause::{NotKept, NotOpened, OpenCause, StepCause, StepRefused};
pub use keeping::{KeptCore, create_on, step_on};
pub use opening::open_on;
pub use stored::{Opened, Stored};
