//! A journal's bytes leave no choice of what is found.
ghost use Rattle.std.specs.Prelude.{◌≡◌, ℕ, List};
ghost use Rattle.df_audit.specs.Audit.{IsRightJournal, IsWrongAt, OfJournal};

/// Bytes that are a right journal are none that is wrong somewhere.
pub fn a_journal_is_right_or_wrong()
    ensures { (bytes : List ℕ) (place : ℕ) → OfJournal bytes IsRightJournal →
        ¬ OfJournal bytes (λ journal. IsWrongAt journal place) }
{}

/// Bytes that are a wrong journal have one place that is wrong first.
pub fn a_wrong_journal_has_one_place()
    ensures { (bytes : List ℕ) (place other : ℕ) →
        OfJournal bytes (λ journal. IsWrongAt journal place) →
        OfJournal bytes (λ journal. IsWrongAt journal other) → place ≡ other }
{}
