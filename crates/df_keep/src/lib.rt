//! The calls of a script, made on a kept journal.
#![tactic(auto)]

mod names;
mod program;
mod run;
mod script;
mod status;
mod store;

pub use program::run_program;
pub use run::run_keep;
pub use status::KeepStatus;
