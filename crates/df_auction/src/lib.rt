//! An opening auction: one price at which the greatest quantity trades, with a certificate.
#![tactic(auto)]

pub mod laws;
mod lot;
mod market;
mod orders;
mod outcome;
mod record;
mod shown;
mod sweep;
mod text;

pub use market::{auction, certified};
pub use orders::{OrdersRefused, read_orders};
pub use outcome::Auction;
pub use text::{auction_text, write_auctions};
