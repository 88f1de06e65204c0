//! A unit's own state, and the calls that concern no other unit.
#![tactic(auto)]

mod alone;
mod answer;
mod brief;
mod child;
mod clone;
mod close;
mod copies;
mod draft;
mod edits;
mod fixed;
mod labels;
pub mod laws;
mod limits;
mod local;
mod named_parts;
mod read;
mod receive;
mod same;
mod spawn;
mod standing;
mod tags;
mod take;

pub use answer::Answer;
pub use brief::{Accepted, Brief};
pub use close::Close;
pub use fixed::Fixed;
pub use local::Local;
pub use named_parts::NamedParts;
pub use take::is_accepted;
