//! That the spreads of the window serve for all.

ghost use Rattle.std.specs.Prelude.{◌≡◌, ℕ, List, ℤ, ◌∷◌, take};
ghost use Rattle.df_pairs.specs.AllSpreads.{Priced, first_price, second_price, all_spreads, side_by, signal_at, remembered};
ghost use Rattle.df_pairs.specs.Divergence.{signal_of};

/// After any ticks a pair remembers the last prices, the last spreads and the side of the rule
/// over all ticks, and its signals are those of that rule.
pub fn the_window_serves_for_all_spreads()
    ensures remembers { (window : ℕ) (threshold : ℤ) (past : List Priced) →
        remembered window threshold past ≡ record {
          window = window;
          threshold = threshold;
          first = first_price past;
          second = second_price past;
          spreads = take window (all_spreads past);
          side = side_by window threshold (all_spreads past);
        } }
    ensures signals { (window : ℕ) (threshold : ℤ) (t : Priced) (past : List Priced) →
        signal_of (remembered window threshold past).side
        (remembered window threshold (t ∷ past)).side
        (remembered window threshold (t ∷ past)).first
        (remembered window threshold (t ∷ past)).second
        ≡ signal_at window threshold t past }
{}
