//! Brains: what a unit is told, and what it then wants.
#![tactic(auto)]

mod brain;
mod last;
pub mod laws;
mod want;

pub use brain::Brain;
pub use last::Last;
pub use want::Want;
