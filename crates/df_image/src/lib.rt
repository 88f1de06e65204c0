//! What the image of a kept journal stands for: its records, and what their bytes are.
#![tactic(auto)]

mod laws;
mod reading;
mod records;

pub use laws::an_image_is_one_thing;
pub use reading::{entry_of, start_of};
pub use records::{entry_record, same_roots, start_record};
