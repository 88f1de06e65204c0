//! The tables of the machine: the units, each with what it is to be handed, the parts that each
//! event has, and the index of subscriptions.
#![tactic(auto)]

mod births;
mod board;
mod calling;
mod commits;
mod event_places;
mod events;
mod handing;
mod line;
mod managing;
mod moves;
mod receivers;
mod row_name;
mod runs;
mod units;

pub use board::Board;
pub use events::{EventRow, Events};
pub use line::Line;
pub use moves::Received;
pub use units::{Unit, first_unit};
