//! Ticks of symbols, and the file that tells them.
#![tactic(auto)]

pub mod laws;
mod record;
mod text;
mod tick;
mod ticks;

pub use text::write_ticks;
pub use tick::Tick;
pub use ticks::{TicksRefused, read_ticks};
