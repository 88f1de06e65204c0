use df_frozen::Words;
use std::marker::Model;

/// A pair of symbols, and how far their spread may part from its mean, in hundredths.
#[derive(Drop)]
pub struct PairRow {
    pub first: Words,
    pub second: Words,
    pub threshold: i64,
}

/// A list of pairs.
#[derive(Drop)]
pub struct PairRows {
    rows: Vec<PairRow>,
}

impl Model for PairRows {
    ghost use Rattle.std.specs.Prelude.{List};
    ghost use Rattle.df_config.specs.declared.pair.PairRow.{PairRow};

    ghost Value = { List PairRow };

    ghost view = { λ r. r.rows.items };
}

impl PairRows {
    ghost use Rattle.std.specs.Prelude.{◌≡◌};

    /// Takes no memory.
    pub fn new(rows: Vec<PairRow>) -> PairRows
        ensures { result ≡ rows.items }
    {
        PairRows { rows }
    }

    pub fn as_slice(&self) -> &[PairRow]
        ensures { result.now ≡ self.now }
    {
        self.rows.as_slice()
    }
}
