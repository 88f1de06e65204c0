//! What a summary tells.

/// How many parts of some names a journal's commits add, what quantity was traded, and how many
/// instances acted.
#[derive(Clone, Copy, Debug, PartialEq, Eq)]
pub struct Summary {
    pub ticks: u64,
    pub matches: u64,
    pub orders: u64,
    pub trades: u64,
    pub quantity: i128,
    pub warnings: u64,
    pub instances: u64,
}
