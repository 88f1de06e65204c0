//! What is kept of units, by their names.
#![tactic(auto)]

mod kept;

pub use kept::Kept;
