//! A trading floor of a configuration: what its roots begin with, and their brains.
#![tactic(auto)]

mod brains;
pub mod laws;
mod start;

pub use brains::floor_brains;
pub use start::floor_start;
