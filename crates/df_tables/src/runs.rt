//! A unit with another own state, as runs of local calls need it.

ghost use Rattle.std.specs.Prelude.{◌≡◌, Some};
ghost use Rattle.std.specs.Option.{option_map};
ghost use Rattle.df_tables.specs.Board.{IsBoard, row_on};
ghost use Rattle.df_tables.specs.Runs.{IsSwapped, ReadsAs};

use crate::board::Board;
use df_local::Local;
use std::mem;

impl Board {
    /// Replaces a unit's own state by one with the same input label, and returns the old one. Takes
    /// no memory.
    pub fn swap(&mut self, local: Local) -> Local
        requires board { IsBoard self.old }
        requires reads { ReadsAs local (row_on self.old local.unit) }
        ensures board { IsBoard self.new }
        ensures swapped { IsSwapped local self.old self.new }
        ensures before { option_map (λ u. u.local) (row_on self.old local.unit)
            ≡ Some result }
    {
        let Some(place) = self.roll.place(local.name()) else {
            return local;
        };
        mem::replace(&mut self.rows[place].local, local)
    }
}
