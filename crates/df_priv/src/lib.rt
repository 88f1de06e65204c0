//! What a unit may do with tags: the privileges that it holds, and those that a change asks for.
#![tactic(auto)]

mod held;
pub mod laws;
mod need;

pub use held::Held;
pub use need::{Act, Half, needed, needed_to_attach};
