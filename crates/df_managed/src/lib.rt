//! The contaminations of the instances to which a commit is handed.
#![tactic(auto)]

mod chosen;
mod managed;
mod secrets;
mod tag_sets;

pub use managed::contaminations;
pub use tag_sets::TagSets;
