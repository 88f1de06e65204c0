//! An order book: its orders and trades, and what an order does to those that rest.
#![tactic(auto)]

mod balance;
mod book;
mod changes;
mod compare;
mod entry;
pub mod laws;
mod order;
mod place;
mod plan;
mod resting;
mod trade;
mod tree;
mod walk;

pub use book::Book;
pub use order::{Order, Orders};
pub use trade::{Trade, Trades};
