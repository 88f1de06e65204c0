//! A machine, or its tables alone, go over a kept journal: where each of its entries stands, the
//! rules give one.
#![tactic(auto)]

mod call;
mod entry;
mod repeats;
mod steps;

pub use call::copy_call;
pub use entry::{copy_commit, copy_entry};
pub use repeats::{Compared, compare, repeat};
pub use steps::{begin, replay};
