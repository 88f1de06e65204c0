//! Which privileges the units of each root's family can ever hold, whatever they do.
#![tactic(auto)]

mod cell;
mod find;
mod first;
mod row;
mod spread;
mod table;
mod tags;
mod text;

pub use find::lint;
pub use table::Lint;
pub use text::lint_text;
