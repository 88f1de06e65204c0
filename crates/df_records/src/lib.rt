//! Files of comma-separated records: a header, and then a record for each thing that they tell.
#![tactic(auto)]

mod form;
pub mod laws;
mod records;
mod spelled;

pub use form::Form;
pub use records::{RecordsRefused, read_records};
pub use spelled::{field, is_symbol, number, symbol};
