//! Whole journals: in either version they are read exactly, or refused at their first bad line; or
//! they are gone over entry by entry.
#![tactic(auto)]

mod cursor;
mod entry;
mod file;
mod place;
mod told;

pub use cursor::JournalCursor;
pub use file::{Journal, read_either, read_journal, read_noted};
