//! What the words of a command ask for.
#![tactic(auto)]

mod command;
mod label;
mod number;
mod words;

pub use command::{Command, Files, WordsRefused};
pub use words::read_words;
