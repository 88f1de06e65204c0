//! Names of units and events, calls and replies, the entries of a journal, and a unit's own state.
#![tactic(auto)]

mod call;
mod commit;
mod entry;
mod handle;
mod name;
mod parts;
mod path;
mod reply;

pub use call::Call;
pub use commit::{Commit, Given};
pub use entry::{Effect, Entry, Noted};
pub use handle::{Drafts, Handle, Spots};
pub use name::{EventName, UnitName};
pub use parts::{PartRead, PartsRead};
pub use path::Path;
pub use reply::Reply;
