//! The machine: a start, and the journal of all calls since.
#![tactic(auto)]

mod machine;
mod tables;
mod taking;

pub use df_tables::Received;
pub use machine::{BookCause, Core, NotBooked, NotEmitted, NotStepped};
pub use tables::Tables;
