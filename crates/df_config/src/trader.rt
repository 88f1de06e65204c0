use crate::numbers::PairNumbers;
use std::marker::Model;

/// A trader: the pairs that are watched for it, how much it orders, how far from the price, in
/// hundredths, and whether it trades against the signals.
#[derive(Drop)]
pub struct TraderRow {
    pub pairs: PairNumbers,
    pub quantity: i64,
    pub slack: i64,
    pub contrary: bool,
}

/// A list of traders.
#[derive(Drop)]
pub struct TraderRows {
    rows: Vec<TraderRow>,
}

impl Model for TraderRows {
    ghost use Rattle.std.specs.Prelude.{List};
    ghost use Rattle.df_config.specs.declared.trader.TraderRow.{TraderRow};

    ghost Value = { List TraderRow };

    ghost view = { λ r. r.rows.items };
}

impl TraderRows {
    ghost use Rattle.std.specs.Prelude.{◌≡◌};

    /// Takes no memory.
    pub fn new(rows: Vec<TraderRow>) -> TraderRows
        ensures { result ≡ rows.items }
    {
        TraderRows { rows }
    }

    pub fn as_slice(&self) -> &[TraderRow]
        ensures { result.now ≡ self.now }
    {
        self.rows.as_slice()
    }
}
