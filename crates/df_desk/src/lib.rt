//! A lock that hands one value from thread to thread. The value has a log, which only grows.
//!
//! A thread takes the value from the desk with a pass, and gives it back with a log that goes on
//! from what it was. A pass remembers how much of the log it has seen, so that what one take gives
//! begins with all that the pass, or any pass that was joined into it, had seen before.
#![tactic(auto)]

mod desk;
mod error;
mod journaled;
pub mod laws;
mod pass;
mod plays;
mod rule;
mod view;

pub use desk::Desk;
pub use error::NotMade;
pub use journaled::Journaled;
pub use pass::Pass;
