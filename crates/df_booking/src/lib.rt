//! Booking a turn: its calls in the machine, and its unit's brain behind them.
#![tactic(auto)]

mod booking;
mod renewal;

pub use renewal::{book_at, book_kept, seed_name};
