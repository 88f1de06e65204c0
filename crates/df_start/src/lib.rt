//! What the units that a journal begins with begin with.
#![tactic(auto)]

mod start;

pub use start::{RootStart, Start};
