//! The top call: what the words of a command ask for, from the bytes of files to the bytes of the
//! output, and the program that hands over the user's words.
#![tactic(auto)]

mod floor;
mod input;
mod lint;
mod making;
mod program;
mod run;
mod status;
mod steps;
mod tasks;

pub use program::run_program;
pub use run::{Left, run_main, run_plain};
pub use status::{BadKind, Status};
