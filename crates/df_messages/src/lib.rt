//! The messages of a trading floor: how they are read, and the parts that tell them.
#![tactic(auto)]

mod draft;
mod field;
mod message;
mod part;
mod read;
mod symbol;
mod value;

pub use draft::Draft;
pub use message::{Match, Offer, Parties};
pub use part::{
    endorsed, fill_draft, match_draft, offer_draft, public, secret, tick_draft, trade_draft,
    warning_draft, who_draft,
};
pub use read::{TickRead, read_match, read_number, read_offer, read_parties, read_tick};
pub use symbol::Symbol;
