//! A machine whose units have brains, and the turns that they take.
#![tactic(auto)]

mod base;
mod crew;
mod journaled;
mod origin;
mod rest;
mod roster;
mod since;

pub use base::Base;
pub use crew::{BeginRefused, BookCause, Crew, NotTurned};
pub use origin::Origin;
pub use roster::units;
