ghost use Rattle.std.specs.Prelude.{◌≡◌};

use crate::error::NotMade;
use crate::journaled::Journaled;
use crate::pass::Pass;
use crate::plays::{Both, Compare, Count, Free, Try, Twin};
use crate::rule::DeskRule;
use crate::view::View;
use atomic_table::{Refused, Seat, Table};
use df_memory::NoMemory;
use std::alloc::Global;
use std::marker::Model;
use std::snapshot::Snapshot;
use std::sync::Wait;

// The word that is 1 while a seat has the value, and else 0.
const HELD: usize = 0;

// What that word is while no seat has the value.
const NOT_HELD: u64 = 0;

// The word with the length of the desk's list.
const COUNT: usize = 1;

type DeskSeat<V> = Seat<Option<V>, View<V>>;

/// A desk with one value, which threads take in turn.
///
/// Contracts see a desk as `DeskId`: which desk it is, and the origin of its value.
#[derive(Drop)]
pub struct Desk<V: Journaled> {
    table: Table<Option<V>, View<V>, Snapshot<V>, DeskRule<V>, Global>,
}

impl<V: Journaled> Model for Desk<V> {
    ghost use Rattle.std.specs.Prelude.{◌≡◌};
    ghost use Rattle.df_desk.specs.Pass.{DeskId};

    ghost Value = { DeskId V.Origin };

    ghost view = { λ d. record {
      table = d.table.shared.table_id;
      origin = V.origin d.table.shared.key.value;
    } };

    ghost invariant = { λ d. (d.table.shared.table_id.words ≡ 2)
        × (d.table.shared.table_id.slots ≡ 1) };
}

impl<V: Journaled> Desk<V> {
    ghost use Rattle.std.specs.Prelude.{◌≡◌, true, false, IsOk, IfOk, IfErr, IfSome, IfNone, length};
    ghost use mathlib.Core.List.{IsPrefix};
    ghost use Rattle.df_desk.specs.View.{settled_seat, IsSettled, seen_list};
    ghost use Rattle.df_desk.specs.Rule.{GoesOnFrom};
    ghost use Rattle.df_desk.specs.Pass.{IsFree, Holds, IsNew, desk_of, longer_list, one_more};

    /// A desk with the value, and its first pass. There is an error only where there is no memory.
    pub fn new(alloc: Global, value: V) -> Result<(Desk<V>, Pass<V>), NotMade<V>>
        ensures origin { IfOk result (λ made. made.0.origin ≡ V.origin value) }
        ensures free { IfOk result (λ made. IsFree made.0 made.1) }
        ensures new { IfOk result (λ made. IsNew made.1 (V.list value)) }
        ensures err { IfErr result (λ refused. refused.value ≡ value) }
    {
        let count = value.count();
        let first = Snapshot::of(&value);
        let Ok(mut slots) = Vec::with_capacity(alloc, 1) else {
            return Err(NotMade { value });
        };
        slots.push_reserved(Some(value));
        match Table::new(alloc, &[NOT_HELD, count], slots, &first) {
            Ok((table, seat)) => Ok((Desk { table }, Pass::at(seat, count))),
            Err(Refused { mut slots }) => {
                let value = slots.pop().unwrap().unwrap();
                slots.destroy_empty();
                Err(NotMade { value })
            }
        }
    }

    // Takes the value out of its slot, if no other seat has it.
    fn try_call(&self, seat: &mut DeskSeat<V>) -> Option<V>
        requires seat { (seat.old.table_id ≡ self.now.table) × IsSettled false seat.old.me }
        ensures table { seat.new.table_id ≡ seat.old.table_id }
        ensures some { IfSome result (λ value. seat.new.me ≡ settled_seat true value) }
        ensures begins { IfSome result (λ value. (v : V) → seat.old.me ≡ settled_seat false v
            → GoesOnFrom V.origin V.list value v) }
        ensures none { IfNone result (seat.new.me ≡ seat.old.me) }
    {
        let held = self.table.shared.swap::<Try<V>>(seat, HELD, 1);
        if held != NOT_HELD {
            return None;
        }
        self.table.shared.exchange(seat, 0, None)
    }

    // Waits until no other seat has the value, and takes it out of its slot.
    fn call<R: Wait>(&self, rt: &R, seat: &mut DeskSeat<V>) -> V
        requires seat { (seat.old.table_id ≡ self.now.table) × IsSettled false seat.old.me }
        ensures table { seat.new.table_id ≡ seat.old.table_id }
        ensures seat { seat.new.me ≡ settled_seat true result }
        ensures begins { (v : V) → seat.old.me ≡ settled_seat false v →
            GoesOnFrom V.origin V.list result v }
    {
        for _ in rt.forever() {
            if let Some(value) = self.try_call(seat) {
                return value;
            }
            self.table.shared.park(rt, HELD, 1);
        }
        unreachable!()
    }

    // Counts the value's list, puts the value back and frees the desk.
    // The list had `seen` entries, and has now as many as are returned.
    fn hand_back(&self, seat: &mut DeskSeat<V>, seen: u64, value: V) -> u64
        requires seat { (seat.old.table_id ≡ self.now.table) × IsSettled true seat.old.me }
        requires seen { (v : V) → seat.old.me ≡ settled_seat true v → seen ≡ length (V.list v) }
        requires begins { (v : V) → seat.old.me ≡ settled_seat true v →
            GoesOnFrom V.origin V.list value v }
        ensures table { seat.new.table_id ≡ seat.old.table_id }
        ensures seat { seat.new.me ≡ settled_seat false value }
        ensures count { result ≡ length (V.list value) }
    {
        let count = value.count();
        let back = Some(value);
        let shared = &self.table.shared;
        shared.compare_exchange_with::<Count>(seat, COUNT, seen, count, &back);
        let old = shared.exchange(seat, 0, back);
        let None = old else { unreachable!() };
        shared.swap::<Free>(seat, HELD, NOT_HELD);
        shared.wake_one(HELD);
        count
    }

    // Joins the other seat into this one, which has then seen the longer of both lists.
    fn unite(&self, seat: &mut DeskSeat<V>, other: DeskSeat<V>)
        requires seat { (seat.old.table_id ≡ self.now.table) × IsSettled false seat.old.me }
        requires other { (other.table_id ≡ self.now.table) × IsSettled false other.me }
        ensures seat { IsSettled false seat.new.me }
        ensures desk { desk_of V.origin seat.new.table_id seat.new.me.0
            ≡ desk_of V.origin seat.old.table_id seat.old.me.0 }
        ensures seen { seen_list V.list seat.new.me.0
            ≡ longer_list (seen_list V.list seat.old.me.0) (seen_list V.list other.me.0) }
        ensures this { IsPrefix (seen_list V.list seat.old.me.0) (seen_list V.list seat.new.me.0) }
        ensures that { IsPrefix (seen_list V.list other.me.0) (seen_list V.list seat.new.me.0) }
    {
        self.table.shared.join_seat::<Both>(seat, other);
        self.table.shared.load::<Compare<V>>(seat, HELD);
    }

    /// Waits until no other pass has the value, and takes it. A thread that waits sleeps until a
    /// give wakes it.
    ///
    /// The clauses hold if the call returns. They promise no progress and no fairness: not that a
    /// wait ends, nor how long it takes, nor who comes first.
    pub fn take<R: Wait>(&self, rt: &R, pass: &mut Pass<V>) -> V
        requires { IsFree self.now pass.old }
        ensures pass { Holds self.now pass.new }
        ensures origin { V.origin result ≡ self.now.origin }
        ensures begins { IsPrefix pass.old.seen (V.list result) }
        ensures seen { pass.new.seen ≡ V.list result }
        ensures found { pass.new.found ≡ V.list result }
        ensures takes { pass.new.takes ≡ one_more pass.old.takes }
        ensures splits { pass.new.splits ≡ pass.old.splits }
    {
        let value = self.call(rt, &mut pass.seat);
        let count = value.count();
        pass.holds = true;
        pass.seen = count;
        pass.found = count;
        pass.takes = pass.takes.saturating_add(1);
        value
    }

    /// Gives the value back, or another one whose list goes on from what the pass has seen. It
    /// does not wait, and wakes one thread that does.
    pub fn give(&self, pass: &mut Pass<V>, value: V)
        requires pass { Holds self.now pass.old }
        requires origin { V.origin value ≡ self.now.origin }
        requires begins { IsPrefix pass.old.seen (V.list value) }
        ensures pass { IsFree self.now pass.new }
        ensures seen { pass.new.seen ≡ V.list value }
        ensures found { pass.new.found ≡ pass.old.found }
        ensures takes { pass.new.takes ≡ pass.old.takes }
        ensures splits { pass.new.splits ≡ pass.old.splits }
    {
        pass.seen = self.hand_back(&mut pass.seat, pass.seen, value);
        pass.holds = false;
    }

    /// A new pass of this desk, which has seen the same. It takes no memory, so it is always
    /// made, and `NoMemory` never comes.
    pub fn split(&self, pass: &mut Pass<V>) -> Result<Pass<V>, NoMemory>
        requires { IsFree self.now pass.old }
        ensures made { IsOk result }
        ensures new { IfOk result (λ new. IsFree self.now new × IsNew new pass.old.seen) }
        ensures pass { IsFree self.now pass.new }
        ensures seen { pass.new.seen ≡ pass.old.seen }
        ensures found { pass.new.found ≡ pass.old.found }
        ensures takes { pass.new.takes ≡ pass.old.takes }
        ensures splits { pass.new.splits ≡ one_more pass.old.splits }
    {
        let seat = self.table.shared.split_seat::<Twin>(&mut pass.seat);
        pass.splits = pass.splits.saturating_add(1);
        Ok(Pass::at(seat, pass.seen))
    }

    /// Joins the other pass into this one, which has then seen the longer of both lists.
    pub fn join(&self, pass: &mut Pass<V>, other: Pass<V>)
        requires pass { IsFree self.now pass.old }
        requires other { IsFree self.now other }
        ensures pass { IsFree self.now pass.new }
        ensures seen { pass.new.seen ≡ longer_list pass.old.seen other.seen }
        ensures begins { IsPrefix pass.old.seen pass.new.seen × IsPrefix other.seen pass.new.seen }
        ensures found { pass.new.found ≡ pass.old.found }
        ensures takes { pass.new.takes ≡ pass.old.takes }
        ensures splits { pass.new.splits ≡ pass.old.splits }
    {
        let Pass {
            seat,
            holds: _,
            seen,
            found: _,
            takes: _,
            splits: _,
        } = other;
        self.unite(&mut pass.seat, seat);
        pass.seen = pass.seen.max(seen);
    }

    /// Waits as `take` does, and takes the value for good: later takes wait for ever. The clauses
    /// hold if the call returns, and promise no progress and no fairness.
    pub fn finish<R: Wait>(&self, rt: &R, pass: Pass<V>) -> V
        requires { IsFree self.now pass }
        ensures origin { V.origin result ≡ self.now.origin }
        ensures begins { IsPrefix pass.seen (V.list result) }
    {
        let Pass {
            mut seat,
            holds: _,
            seen: _,
            found: _,
            takes: _,
            splits: _,
        } = pass;
        self.call(rt, &mut seat)
    }
}
