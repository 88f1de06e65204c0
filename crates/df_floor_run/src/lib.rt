//! A whole run of a trading floor, from its configuration and its ticks to the text.
#![tactic(auto)]

mod journal;
mod load;
mod run;
mod running;
mod workers;

pub use load::{load_config, run_load};
pub use run::{FloorEnd, FloorRun, run_floor};
pub use workers::run_floor_by;
