//! The units of a trading floor, as brains.
#![tactic(auto)]

mod action;
mod book;
mod brain;
mod broker;
mod heard;
mod hearing;
mod kind;
mod offer;
mod opening;
mod stage;
mod telling;
mod ticks;
mod trader;
mod trades;

pub use brain::FloorBrain;
pub use ticks::Ticks;
