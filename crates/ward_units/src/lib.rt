//! The units of a ward, as brains: the ward itself, its doctor and its office.
#![tactic(auto)]

mod doctor;
mod new_part;
mod office;
mod role;
mod ward;
mod wishes;

pub use doctor::Doctor;
pub use new_part::NewPart;
pub use office::Office;
pub use role::Role;
pub use ward::Ward;
