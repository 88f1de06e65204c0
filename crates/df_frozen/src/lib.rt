//! Names, values, and values that are frozen: shared and never changed again.
#![tactic(auto)]

mod blob;
mod change;
mod copy;
mod count;
mod entries;
mod freeze;
mod frozen;
mod items;
mod let_go;
mod name;
mod put;
mod row;
mod same;
mod step;
mod value;
mod words;

pub use blob::Blob;
pub use entries::Entries;
pub use freeze::{FreezeCause, MOST_BYTES, MOST_DEPTH, MOST_NODES, Unfrozen};
pub use frozen::Frozen;
pub use items::Items;
pub use name::{LONGEST_NAME, Name, NameRefused, is_letter, is_name_byte};
pub use put::{NotPut, PutCause};
pub use step::Step;
pub use value::Value;
pub use words::Words;
