//! Parts of events, edits of an event, and the parts that an event has after its edits.
#![tactic(auto)]

mod contents;
mod edit;
mod part;
mod part_ref;
mod parts;
mod readable_parts;

pub use contents::{Contents, is_deleted};
pub use edit::{Edit, Spot};
pub use part::{Part, readable};
pub use part_ref::PartRef;
pub use parts::Parts;
pub use readable_parts::ReadableParts;
