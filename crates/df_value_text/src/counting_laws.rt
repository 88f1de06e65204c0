//! What the counts of a walk are, as laws.
ghost use Rattle.std.specs.Prelude.{ℕ, List, ◌++◌, ◌<◌, length};
ghost use Rattle.df_frozen.specs.Limits.{IsWithinLimits};
ghost use Rattle.df_frozen.specs.Plain.{Plain};
ghost use Rattle.df_value_text.specs.Counting.{AreCountsOf, FirstOver, NeverOver, counts_of};
ghost use Rattle.df_value_text.specs.Fits.{IsSpelled};
ghost use Rattle.df_value_text.specs.Value.{value_text};

/// The counts taken while a value is parsed are those of the value, whatever stands behind it.
#[tactic(auto, using(crate::proofs::CountingEnds::counted_behind))]
pub fn counts_are_exact()
    ensures { (p : Plain) → IsSpelled p → (rest : List ℕ) →
        AreCountsOf p (counts_of (value_text p ++ rest)) }
{}

/// A count is passed within the spelling of a value exactly where the value may not be frozen.
pub fn counts_decide()
    ensures never { (p : Plain) → IsSpelled p → IsWithinLimits p → (rest : List ℕ) →
        NeverOver (value_text p ++ rest) }
    ensures within { (p : Plain) → IsSpelled p → (rest : List ℕ) →
        NeverOver (value_text p ++ rest) → IsWithinLimits p }
    ensures over { (p : Plain) → IsSpelled p → (rest left : List ℕ) →
        FirstOver (value_text p ++ rest) left → IsWithinLimits p → ⊥ }
    ensures inside { (p : Plain) → IsSpelled p → (rest left : List ℕ) →
        FirstOver (value_text p ++ rest) left → length rest < length left }
{}
