//! Whether a kept journal is what the rules give.
#![tactic(auto)]

mod noted;
mod plain;

pub use noted::{NotedVerdict, check_noted};
pub use plain::{Verdict, check, other_than};
