//! The configuration of a trading floor, and the file that tells it.
#![tactic(auto)]

mod config;
mod fields;
mod form;
pub mod laws;
mod numbers;
mod pair;
mod read;
mod tables;
mod trader;

pub use config::Config;
pub use numbers::PairNumbers;
pub use pair::{PairRow, PairRows};
pub use read::{ConfigRefused, read_config};
pub use trader::{TraderRow, TraderRows};
