//! A unit with the place of its row, and where it stands among others.

ghost use Rattle.std.specs.Prelude.{◌≡◌, ◌<◌, ◌≤◌, None, Some, IfErr, IfOk, length, slice_index_or};
ghost use Rattle.std.specs.List.{insert};
ghost use Rattle.df_label.specs.Ascending.{IsAscending};
ghost use Rattle.df_unit.specs.UnitOrder.{unit_cmp};
ghost use Rattle.df_roll.specs.Roll.{names_in, seat_of};
ghost use Rattle.df_roll.specs.declared.seat.Seat.{Seat};

use df_unit::UnitName;
use std::cmp::Ordering;

/// A unit, and the place of its row.
#[derive(Drop)]
pub struct Seat {
    pub unit: UnitName,
    pub place: usize,
}

/// How a seat's unit and a unit stand to each other.
fn compare(seat: &Seat, name: &UnitName) -> Ordering
    ensures { result ≡ unit_cmp seat.now.unit name.now }
{
    seat.unit.cmp(name)
}

/// Where a unit's seat is, or where it would be.
pub fn seat_at(seats: &[Seat], name: &UnitName) -> Result<usize, usize>
    requires { IsAscending unit_cmp (names_in seats.now) }
    ensures found { IfOk result (λ k. (d : Seat) →
        seat_of name.now seats.now ≡ Some (slice_index_or seats.now k d).place) }
    ensures within { IfOk result (λ k. k < length seats.now) }
    ensures absent { IfErr result (λ k. seat_of name.now seats.now ≡ None) }
    ensures bound { IfErr result (λ k. k ≤ length seats.now) }
    ensures between { IfErr result (λ k.
        IsAscending unit_cmp (insert (names_in seats.now) k name.now)) }
{
    seats.binary_search_by(|seat| compare(seat, name))
}
