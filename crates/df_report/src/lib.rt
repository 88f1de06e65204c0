//! What a journal of a trading floor comes to.
#![tactic(auto)]

mod count;
mod instances;
mod quantity;
mod report;
mod summing;
mod text;

pub use report::Summary;
pub use summing::summary;
pub use text::write_summary;
