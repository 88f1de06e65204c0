//! Where each unit's row stands: the places of rows, in the order of units.
#![tactic(auto)]

mod chunk;
mod chunks;
mod roll;
mod seat;

pub use roll::Roll;
pub use seat::Seat;
