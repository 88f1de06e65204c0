//! A script's calls, made one after another, and the text of their journal.
#![tactic(auto)]

mod step;

pub use step::{append_common, append_root, append_step};
