//! What the text of a journal tells, as laws.
ghost use Rattle.std.specs.Prelude.{◌≡◌, ◌++◌, ℕ, List, Ok};
ghost use Rattle.df_start.specs.declared.start.RootStart.{RootStart};
ghost use Rattle.df_unit.specs.declared.entry.Noted.{Noted};
ghost use Rattle.df_journal_text.specs.Fits.{IsJournal};
ghost use Rattle.df_journal_text.specs.ReadEntry.{EndsJournal, journal_at};
ghost use Rattle.df_journal_text.specs.Start.{journal_text};

/// No text spells two journals: the bytes determine the start and the noted entries.
pub fn a_text_is_one_journal()
    ensures { (roots others : List RootStart) (noted more : List Noted)
        → IsJournal roots noted → IsJournal others more
        → journal_text roots noted ≡ journal_text others more → (roots ≡ others) × (noted ≡ more) }
{}

/// A journal that is spelled is read back, and what stands behind it is left.
pub fn a_journal_is_read_back()
    ensures { (roots : List RootStart) (noted : List Noted) (rest : List ℕ)
        → IsJournal roots noted → EndsJournal rest
        → journal_at (journal_text roots noted ++ rest) ≡ Ok ((roots, noted), rest) }
{}
