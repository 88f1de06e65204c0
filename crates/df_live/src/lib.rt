//! The calls of a script, each answered before the next is read.
#![tactic(auto)]

mod answer;
mod calls;
mod head;
mod lines;
mod part;
mod program;
mod read_lines;
mod run;
mod status;

pub use lines::{Lines, NotTaken, Taken};
pub use program::run_program;
pub use read_lines::ReadLines;
pub use run::run_live;
pub use status::LiveStatus;
