//! What a unit gives to a unit that it makes, and what it must hold for that.
#![tactic(auto)]

mod child;

pub use child::{ChildLabels, SpawnRefused, child_labels, lacking};
