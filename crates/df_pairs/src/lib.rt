//! When the prices of two symbols part: the divergence rule over the spreads between them.
#![tactic(auto)]

pub mod laws;
mod pair;
mod recent;
mod signal;

pub use pair::Pair;
pub use signal::Signal;
