use crate::journaled::Journaled;
use crate::view::View;
use atomic_table::Seat;
use std::marker::Model;

/// A place at one desk, with which one thread takes the value and gives it back.
///
/// Contracts see a pass as `PassState`: its desk, the list that it has seen, the list that its last
/// take found, which is a beginning of it, its numbers of takes and splits, and whether it has the
/// value. Both numbers stay at the greatest `u64` once they are there.
///
/// A pass that has the value and is dropped leaves the desk without one: later takes wait for
/// ever.
#[derive(Drop)]
pub struct Pass<V: Journaled> {
    pub(crate) seat: Seat<Option<V>, View<V>>,
    pub(crate) holds: bool,
    // How long the list is that the pass has seen.
    pub(crate) seen: u64,
    // How much of it the last take found.
    pub(crate) found: u64,
    pub(crate) takes: u64,
    pub(crate) splits: u64,
}

impl<V: Journaled> Model for Pass<V> {
    ghost use Rattle.std.specs.Prelude.{take};
    ghost use Rattle.df_desk.specs.View.{seen_list};
    ghost use Rattle.df_desk.specs.Pass.{PassState, IsSeated, desk_of};

    ghost Value = { PassState V.Origin V.Entry };

    ghost view = { λ p. record {
      desk = desk_of V.origin p.seat.table_id p.seat.me.0;
      seen = seen_list V.list p.seat.me.0;
      found = take p.found (seen_list V.list p.seat.me.0);
      takes = p.takes;
      splits = p.splits;
      holds = p.holds;
    } };

    ghost invariant = { λ p. IsSeated V.list p.holds p.seen p.found p.seat.me };
}

impl<V: Journaled> Pass<V> {
    ghost use Rattle.std.specs.Prelude.{◌≡◌, false, length};
    ghost use Rattle.df_desk.specs.View.{settled_seat, seen_list};
    ghost use Rattle.df_desk.specs.Pass.{IsNew, desk_of};

    // A new pass at a seat that has seen a list with `seen` entries.
    pub(crate) fn at(seat: Seat<Option<V>, View<V>>, seen: u64) -> Self
        requires seat { (v : V) × (seat.me ≡ settled_seat false v) × (seen ≡ length (V.list v)) }
        ensures desk { result.desk ≡ desk_of V.origin seat.table_id seat.me.0 }
        ensures free { result.holds ≡ false }
        ensures new { IsNew result (seen_list V.list seat.me.0) }
    {
        Pass {
            seat,
            holds: false,
            seen,
            found: seen,
            takes: 0,
            splits: 0,
        }
    }

    /// Whether the pass has the value.
    pub fn holds(&self) -> bool
        ensures { result ≡ self.now.holds }
    {
        self.holds
    }

    /// How many entries the list has that the pass has seen.
    pub fn count(&self) -> u64
        ensures { result ≡ length self.now.seen }
    {
        self.seen
    }
}
