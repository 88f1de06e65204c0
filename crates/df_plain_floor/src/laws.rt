//! What holds of every pass, as a law.

ghost use Rattle.std.specs.Prelude.{◌≡◌, List, Some, false, slice_get, ℕ};
ghost use Rattle.df_booking.specs.CrewState.{CrewState};
ghost use Rattle.df_machine.specs.Journal.{IsRoll};
ghost use Rattle.df_plain_floor.specs.Grown.{HasBrain};
ghost use Rattle.df_plain_floor.specs.PlainRun.{IsQuiet, is_full, take_turns};
ghost use Rattle.df_rules.specs.Follows.{brain_of};
ghost use Rattle.df_unit.specs.declared.name.UnitName.{UnitName};

use df_brain::Brain;

/// Where all units take turns and nothing is appended, though more may be, each is at rest.
pub fn passes_end_at_rest<B: Brain>()
    ensures { (max : ℕ) (names : List UnitName) (crew : CrewState B) →
        IsRoll crew.core names → is_full max crew ≡ false →
        take_turns (brain_of B.next B.instance) max names crew ≡ crew →
        ((k : ℕ) (u : UnitName) → slice_get names k ≡ Some u →
        HasBrain (brain_of B.next B.instance) max crew u) →
        IsQuiet (brain_of B.next B.instance) crew }
{}
