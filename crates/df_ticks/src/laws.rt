//! What the bytes of a tick file tell, as laws.

ghost use Rattle.std.specs.Prelude.{◌≡◌, ℕ, List};
ghost use Rattle.df_ticks.specs.TickFile.{IsBadAt, IsTickFile};
ghost use Rattle.df_ticks.specs.declared.tick.Tick.{Tick};

/// The bytes of a tick file determine its ticks, and each of its records is in form: no bytes
/// are both read and refused.
pub fn a_tick_file_is_one_list()
    ensures ticks { (bytes : List ℕ) (some others : List Tick) →
        IsTickFile bytes some → IsTickFile bytes others → some ≡ others }
    ensures good { (bytes : List ℕ) (ticks : List Tick) (line : ℕ) →
        IsTickFile bytes ticks → ¬ IsBadAt bytes line }
{}

ghost use Rattle.std.specs.Prelude.{All};
ghost use Rattle.df_ticks.specs.TickFile.{IsTick};
ghost use Rattle.df_ticks.specs.TickText.{ticks_text};

/// What is written of ticks in form is a file of exactly these ticks.
pub fn written_ticks_are_a_file_of_them()
    ensures { (ticks : List Tick) → All IsTick ticks → IsTickFile (ticks_text ticks) ticks }
{}
