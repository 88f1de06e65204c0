//! The plain scheduler: it gives the units of a crew their turns, one after another.
#![tactic(auto)]

pub mod laws;
mod run;
mod turns;

pub use run::{Ended, open_turns, run_passes, run_turns};
