//! Tests of hubs, and of workers at one.
#![tactic(auto)]

#[cfg(test)]
mod hubs;
mod player;
mod teller;
#[cfg(test)]
mod workers;

pub use player::Player;
pub use teller::Teller;
