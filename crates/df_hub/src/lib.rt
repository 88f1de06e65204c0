//! A hub: a crew on a desk, whose units take their turns in threads of their own.
#![tactic(auto)]

mod hub;

pub use hub::{Hub, Stepped};
