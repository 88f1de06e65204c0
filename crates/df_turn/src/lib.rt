//! Turns: a unit's local calls, made by its brain apart from all other units.
#![tactic(auto)]

mod going;
mod mind;
mod ready;
mod shared;
mod stage;
mod turn;

pub use going::Going;
pub use mind::Mind;
pub use ready::Ready;
pub use shared::Shared;
pub use stage::Stage;
pub use turn::{Turn, TurnParts};
