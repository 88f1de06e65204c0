//! The handles that a unit has open: drafts of events, and views of those that were handed to it.
#![tactic(auto)]

mod clone;
mod copies;
mod edits;
mod handles;
mod limits;
mod parts;
mod places;
mod read;
mod same;
mod slot;
mod visible;

pub use clone::{cloned, source_count};
pub use edits::{has_drafted, has_visible};
pub use handles::Handles;
pub use parts::{copies_of, new_part, relabelled};
pub use read::shown;
pub use visible::is_named;
