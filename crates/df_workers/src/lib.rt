//! Workers: threads that give the units of a hub their turns, in rounds.
#![tactic(auto)]

mod came;
mod gate;
mod rounds;
mod serve;
mod step;
mod worker;

pub use gate::{Gate, OpenGate};
pub use rounds::run;
