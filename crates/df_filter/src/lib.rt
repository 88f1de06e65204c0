//! Clauses on a part's name and value, and filters made of them.
#![tactic(auto)]

mod asked;
mod clause;
mod field_test;
mod filter;

pub use clause::{Clause, Test};
pub use field_test::FieldTest;
pub use filter::{Filter, FilterRefused, MOST_CLAUSES};
