//! The one spelling of filters, and their reader.
#![tactic(auto)]

mod clause_reader;
mod field_test_reader;
mod read;
mod refused;
mod write;

pub use read::{filter_at, read_filter};
pub use refused::FilterTextRefused;
pub use write::{append_filter, write_filter};
