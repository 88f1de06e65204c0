//! What stays of a journal at a label.
#![tactic(auto)]

mod echo;
mod noted;
mod purged;

pub use echo::shown_of;
pub use noted::{purge_noted, push_left};
pub use purged::purge;
