//! Runs of local calls of one unit, apart from all others.
#![tactic(auto)]

mod local_run;
mod parts;

pub use local_run::{LocalRun, is_local};
pub use parts::RunParts;
