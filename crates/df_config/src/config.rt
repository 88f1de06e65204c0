use crate::pair::PairRows;
use crate::trader::TraderRows;

/// What a trading floor is made of.
#[derive(Drop)]
pub struct Config {
    /// A run ends once its journal has this many entries.
    pub max_steps: u64,
    pub pairs: PairRows,
    pub traders: TraderRows,
    /// With how many of the last spreads a spread is compared.
    pub window: u32,
}
