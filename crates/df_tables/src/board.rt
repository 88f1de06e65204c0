//! The tables of the machine in one: the units, the events, and the index of subscriptions.

ghost use Rattle.std.specs.Prelude.{◌≡◌, ◌↔◌, ◌∷◌, ℕ, ◌+◌, ◌<◌, [], false, IsTrue, List, None, Some, IfOk, IfSome, OnErr, OnOk, length, option_copied, slice_get, vec_len};
ghost use Rattle.std.specs.List.{All};
ghost use Rattle.std.specs.Option.{option_map};
ghost use Rattle.df_label.specs.declared.label.Label.{Label};
ghost use Rattle.df_label.specs.declared.privilege.Privilege.{Privilege};
ghost use Rattle.df_rules.specs.Commits.{commit_in};
ghost use Rattle.df_unit.specs.declared.call.Call.TheVariants.{Get, Instantiate, Subscribe, SubscribeManaged};
ghost use Rattle.df_unit.specs.declared.entry.Effect.{Effect};
ghost use Rattle.df_unit.specs.declared.name.UnitName.{UnitName};
ghost use Rattle.df_unit.specs.declared.name.UnitName.TheVariants.{Root};
ghost use Rattle.df_unit.specs.declared.reply.Reply.{Reply};
ghost use Rattle.df_unit.specs.declared.reply.Reply.TheVariants.{Sub};
ghost use Rattle.df_unit.specs.UnitOrder.{unit_cmp};
ghost use Rattle.df_label.specs.Ascending.{IsAscending};
ghost use Rattle.df_local.specs.Brief.{accepted_reply, brief_call};
ghost use Rattle.df_local.specs.Locally.{closing, made_where, shows_one, told_if};
ghost use Rattle.df_tables.specs.Births.{IsEnrolled, IsNewborn, beside_of, rows_in};
ghost use Rattle.df_tables.specs.Board.{AreBorn, HasRoom, IsBoard, IsBooked, IsBornBoard, IsChildBoard, IsKept, IsMade, IsMovedBoard, IsRenewed, MakesAlone, MakesClosing, TellsOf, answer_from, place_on, row_by, row_on, units_in};
ghost use Rattle.df_tables.specs.Hand.{IsAnsweredAt, IsCalm, received_answer};
ghost use Rattle.df_tables.specs.Labels.{AreLabels, inputs};
ghost use Rattle.df_tables.specs.Moves.{child_by, closed_by, is_in_out, made_by, managed_sub_by};
ghost use Rattle.df_tables.specs.Table.{IsInOrder, rows_from};

use crate::births::{Beside, Newborn, beside_of, child_of, count_child, make_room};
use crate::events::Events;
use crate::managing::subscribe_managed;
use crate::moves::{Received, give_at, make_at, make_brief_at, move_at, subscribe};
use crate::units::{Unit, first_roll, labels_of, refresh};
use df_filter::Filter;
use df_index::Index;
use df_instances::{Managed, Marks};
use df_label::{Label, Privileges, TagSet};
use df_local::{Accepted, Answer, Brief, Close, is_accepted};
use df_memory::NoMemory;
use df_part::Part;
use df_roll::Roll;
use df_unit::{Call, Effect, Reply, UnitName};
use std::alloc::Global;

/// Units, events, and the index of subscriptions, in which units and events are named by their
/// places here.
#[derive(Drop)]
pub struct Board {
    pub(crate) rows: Vec<Unit>,
    pub(crate) roll: Roll,
    pub(crate) labels: Vec<Label>,
    pub(crate) stale: Option<usize>,
    pub(crate) events: Events,
    pub(crate) index: Index<Filter>,
    pub(crate) managed: Managed,
    pub(crate) marks: Marks,
    pub(crate) alloc: Global,
}

/// Whether the unit is the root of this number.
fn is_root(name: &UnitName, number: u32) -> bool
    ensures { IsTrue result ↔ (name.now ≡ Root (number ∷ [])) }
{
    let UnitName::Root(path) = name else {
        return false;
    };
    let [first] = path.as_slice() else {
        return false;
    };
    *first == number
}

/// Whether the call is one that changes the label at which its unit reads.
fn is_in_out(call: &Call) -> bool
    ensures { result ≡ is_in_out call.now }
{
    matches!(call, Call::ChangeInOut { .. })
}

/// The ordinary subscription that a call with this reply makes.
fn made_by<'a>(call: &'a Call, reply: &Reply) -> Option<(u32, &'a Filter)>
    ensures { option_map (λ made. (made.0, made.1.now)) result ≡ made_by call.now reply.now }
{
    match (call, reply) {
        (Call::Subscribe { filter }, Reply::Sub(number)) => Some((*number, filter)),
        _ => None,
    }
}

/// The child that a call with this reply makes.
fn child_by<'a>(call: &'a Call, reply: &Reply) -> Option<(u32, &'a TagSet, &'a Privileges)>
    ensures { option_map (λ made. (made.0, (made.1.now, made.2.now))) result
        ≡ child_by call.now reply.now }
{
    match (call, reply) {
        (Call::Instantiate { s, privileges }, Reply::Unit(number)) => {
            Some((*number, s, privileges))
        }
        _ => None,
    }
}

/// The handle that a publish or a release with this reply closes.
fn closed_by(call: &Call, reply: &Reply) -> Option<u32>
    ensures { result ≡ closed_by call.now reply.now }
{
    match call {
        Call::Publish { h } | Call::Release { h } if is_accepted(reply) => Some(*h),
        _ => None,
    }
}

/// The managed subscription that a call with this reply makes.
fn managed_sub_by<'a>(call: &'a Call, reply: &Reply) -> Option<(u32, &'a Filter)>
    ensures { option_map (λ made. (made.0, made.1.now)) result
        ≡ managed_sub_by call.now reply.now }
{
    match (call, reply) {
        (Call::SubscribeManaged { filter }, Reply::Sub(number)) => Some((*number, filter)),
        _ => None,
    }
}

impl Board {
    /// The tables of units that have these rows.
    pub fn new(alloc: Global, rows: Vec<Unit>) -> Result<Board, NoMemory>
        requires order { IsInOrder rows.items }
        requires calm { All IsCalm rows.items }
        ensures board { IfOk result IsBoard }
        ensures tells { IfOk result (λ b. (starts : List (Label × List Privilege)) →
            rows.items ≡ rows_from 0 starts → TellsOf starts [] b) }
    {
        let labels = labels_of(alloc, rows.as_slice())?;
        let roll = first_roll(alloc, rows.as_slice())?;
        Ok(Board {
            rows,
            roll,
            labels,
            stale: None,
            events: Events::new(alloc),
            index: Index::new(alloc),
            managed: Managed::new(alloc),
            marks: Marks::new(alloc),
            alloc,
        })
    }

    /// The place of the row of the root of this number, where the place is the number, as it is of
    /// the first units.
    pub fn root(&self, number: u32) -> Option<usize>
        requires { IsBoard self.now }
        ensures { IfSome result (λ place. place_on self.now (Root (number ∷ [])) ≡ Some place) }
    {
        let place = number as usize;
        let unit = self.rows.get(place)?;
        if is_root(unit.local.name(), number) {
            Some(place)
        } else {
            None
        }
    }

    /// The place of a unit's row, where it has one.
    pub fn place(&self, name: &UnitName) -> Option<usize>
        requires { IsBoard self.now }
        ensures { result ≡ place_on self.now name.now }
    {
        self.roll.place(name)
    }

    /// The row at a place, if there is one.
    pub fn row(&self, place: Option<usize>) -> Option<&Unit>
        ensures { option_copied result ≡ row_by self.now place }
    {
        match place {
            Some(place) => self.rows.get(place),
            None => None,
        }
    }

    /// The row of a unit.
    pub fn unit(&self, name: &UnitName) -> Option<&Unit>
        requires { IsBoard self.now }
        ensures { option_copied result ≡ row_on self.now name.now }
    {
        self.row(self.place(name))
    }

    /// The unit at a place in the order of units.
    pub fn name_at(&self, place: usize) -> Option<&UnitName>
        ensures name { option_copied result ≡ slice_get (units_in self.now) place }
        ensures ascending { IsAscending unit_cmp (units_in self.now) }
    {
        self.roll.unit_at(place)
    }

    /// What the row at a place answers to a call. Where there is none, there is no unit.
    pub fn answer(&self, place: Option<usize>, call: &Call) -> Result<Answer, NoMemory>
        ensures { IfOk result (λ a.
            (a.reply, a.effect) ≡ answer_from (row_by self.now place) call.now) }
    {
        match self.row(place) {
            Some(unit) => unit.local.answer(unit.line.first(), call),
            None => Ok(Answer {
                reply: Reply::NoSuchUnit,
                effect: Effect::Nothing,
            }),
        }
    }

    /// Moves the row at a place as its unit's call does, which changes the label at which the unit
    /// reads. Where memory is wanting, at most the labels are others.
    fn move_reader(
        &mut self,
        place: usize,
        call: &Call,
        reply: &Reply,
        effect: &Effect,
    ) -> Result<(), NoMemory>
        requires board { IsBoard self.old }
        requires within { place < length self.old.rows.items }
        requires right { IsAnsweredAt place call.now reply.now effect.now self.old.rows.items }
        ensures board { IsBoard self.new }
        ensures ok { OnOk result (IsMovedBoard place call.now reply.now effect.now None
            self.old self.new) }
        ensures managed { self.new.managed ≡ self.old.managed }
        ensures same { OnErr result (IsRenewed self.old self.new) }
    {
        self.refresh()?;
        move_at(self.rows.as_mut_slice(), place, call, reply, effect)?;
        self.stale = Some(place);
        Ok(())
    }

    /// Moves the row at a place as its unit's call does, which changes no label and subscribes to
    /// nothing. Where memory is wanting, nothing is another.
    fn move_other(
        &mut self,
        place: usize,
        call: &Call,
        reply: &Reply,
        effect: &Effect,
    ) -> Result<(), NoMemory>
        requires board { IsBoard self.old }
        requires within { place < length self.old.rows.items }
        requires right { IsAnsweredAt place call.now reply.now effect.now self.old.rows.items }
        requires other { is_in_out call.now ≡ false }
        ensures board { IsBoard self.new }
        ensures ok { OnOk result (IsMovedBoard place call.now reply.now effect.now None
            self.old self.new) }
        ensures managed { self.new.managed ≡ self.old.managed }
        ensures same { OnErr result (IsRenewed self.old self.new) }
    {
        move_at(self.rows.as_mut_slice(), place, call, reply, effect)?;
        Ok(())
    }

    /// Enrols the subscription that the unit at a place makes. Where memory is wanting, nothing is
    /// another.
    fn enrol(&mut self, place: usize, filter: &Filter, number: u32) -> Result<(), NoMemory>
        requires board { IsBoard self.old }
        requires within { place < length self.old.rows.items }
        requires right { IsAnsweredAt place (Subscribe filter.now) (Sub number) Effect.Nothing
            self.old.rows.items }
        ensures board { IsBoard self.new }
        ensures ok { OnOk result (IsMovedBoard place (Subscribe filter.now) (Sub number)
            Effect.Nothing (Some (number, filter.now)) self.old self.new) }
        ensures managed { self.new.managed ≡ self.old.managed }
        ensures same { OnErr result (IsRenewed self.old self.new) }
    {
        let rows = self.rows.as_mut_slice();
        subscribe(rows, &mut self.index, place, filter, number)?;
        Ok(())
    }

    /// Enrols the managed subscription that the unit at a place makes. Where memory is wanting,
    /// nothing is another.
    fn enrol_managed(&mut self, place: usize, filter: &Filter, number: u32) -> Result<(), NoMemory>
        requires board { IsBoard self.old }
        requires within { place < length self.old.rows.items }
        requires right { IsAnsweredAt place (SubscribeManaged filter.now) (Sub number)
            Effect.Nothing self.old.rows.items }
        ensures board { IsBoard self.new }
        ensures ok { OnOk result (IsMovedBoard place (SubscribeManaged filter.now) (Sub number)
            Effect.Nothing None self.old self.new) }
        ensures enrolled { OnOk result (IsEnrolled place filter.now number self.old.rows.items
            self.old.managed self.new.managed) }
        ensures same { OnErr result (IsRenewed self.old self.new) }
    {
        let rows = self.rows.as_mut_slice();
        subscribe_managed(rows, &mut self.managed, place, filter, number)?;
        Ok(())
    }

    /// Takes in an entry without a commit of the unit at a place.
    fn book_plain(
        &mut self,
        place: usize,
        call: &Call,
        reply: &Reply,
        effect: &Effect,
    ) -> Result<(), NoMemory>
        requires board { IsBoard self.old }
        requires within { place < length self.old.rows.items }
        requires plain { commit_in effect.now ≡ None }
        requires right { IsAnsweredAt place call.now reply.now effect.now self.old.rows.items }
        ensures board { IsBoard self.new }
        ensures ok { OnOk result (IsMovedBoard place call.now reply.now effect.now
            (made_by call.now reply.now) self.old self.new) }
        ensures managed { self.new.managed ≡ self.old.managed }
        ensures same { OnErr result (IsRenewed self.old self.new) }
    {
        if is_in_out(call) {
            return self.move_reader(place, call, reply, effect);
        }
        match made_by(call, reply) {
            Some((number, filter)) => self.enrol(place, filter, number),
            None => self.move_other(place, call, reply, effect),
        }
    }

    /// Makes room for so many more rows. No row is another.
    pub(crate) fn make_room(&mut self, n: usize) -> Result<(), NoMemory>
        requires board { IsBoard self.old }
        ensures board { IsBoard self.new }
        ensures room { OnOk result (HasRoom n self.new) }
        ensures same { IsRenewed self.old self.new }
        ensures labels { self.new.labels.items ≡ self.old.labels.items }
    {
        make_room(&mut self.rows, &mut self.labels, &mut self.roll, n)
    }

    /// Gives a unit its row, unless it has one. There is room for it. Takes no memory.
    fn bear_in_room(&mut self, born: Unit, beside: Beside)
        requires board { IsBoard self.old }
        requires calm { IsCalm born }
        requires beside { beside ≡ beside_of born }
        requires room { HasRoom 1 self.old }
        ensures board { IsBoard self.new }
        ensures born { IsBornBoard born self.old self.new }
        ensures room { (n : ℕ) → HasRoom (n + 1) self.old → HasRoom n self.new }
    {
        let place = self.rows.len();
        if !self.roll.seat(beside.name, place) {
            return;
        }
        self.labels.push_reserved(beside.label);
        self.rows.push_reserved(born);
    }

    /// Gives a unit its row, unless it has one. Where memory is wanting, nothing is another.
    fn bear(&mut self, born: Unit) -> Result<(), NoMemory>
        requires board { IsBoard self.old }
        requires calm { IsCalm born }
        ensures board { IsBoard self.new }
        ensures ok { OnOk result (IsBornBoard born self.old self.new) }
        ensures same { OnErr result (IsRenewed self.old self.new) }
    {
        let beside = beside_of(&born)?;
        self.make_room(1)?;
        self.bear_in_room(born, beside);
        Ok(())
    }

    /// Gives each of these its row, unless its unit has one. There is room for all. Takes no
    /// memory.
    pub(crate) fn bear_all(&mut self, born: Vec<Newborn>)
        requires board { IsBoard self.old }
        requires newborn { All IsNewborn born.items }
        requires room { HasRoom (vec_len born) self.old }
        ensures board { IsBoard self.new }
        ensures born { AreBorn (rows_in born.items) self.old self.new }
    {
        'births: for one in born {
            let Newborn { row, beside } = one;
            self.bear_in_room(row, beside);
        }
    }

    /// Makes the child of the unit at a place, unless it is there. Where memory is wanting,
    /// nothing is another.
    fn make_child(
        &mut self,
        place: usize,
        number: u32,
        s: &TagSet,
        privileges: &Privileges,
    ) -> Result<(), NoMemory>
        requires board { IsBoard self.old }
        requires within { place < length self.old.rows.items }
        requires right { IsAnsweredAt place (Instantiate s.now privileges.now)
            (Reply.Unit number) Effect.Nothing self.old.rows.items }
        ensures board { IsBoard self.new }
        ensures ok { OnOk result (IsChildBoard place number s.now privileges.now
            self.old self.new) }
        ensures same { OnErr result (IsRenewed self.old self.new) }
    {
        let born = child_of(self.alloc, &self.rows[place].local, number, s, privileges)?;
        self.bear(born)?;
        count_child(self.rows.as_mut_slice(), place, number, s, privileges);
        Ok(())
    }

    /// All labels are those of now.
    pub(crate) fn refresh(&mut self) -> Result<(), NoMemory>
        requires { AreLabels (inputs self.old.rows.items) self.old.labels.items self.old.stale }
        ensures labels { AreLabels (inputs self.new.rows.items) self.new.labels.items
            self.new.stale }
        ensures fresh { OnOk result (self.new.labels.items ≡ inputs self.new.rows.items) }
        ensures same { IsRenewed self.old self.new }
    {
        let rows = self.rows.as_slice();
        refresh(rows, &mut self.labels, self.stale)?;
        self.stale = None;
        Ok(())
    }

    /// Takes in an entry of the unit at a place.
    fn book_at(
        &mut self,
        place: usize,
        call: &Call,
        reply: &Reply,
        effect: &Effect,
    ) -> Result<(), NoMemory>
        requires board { IsBoard self.old }
        requires within { place < length self.old.rows.items }
        requires right { IsAnsweredAt place call.now reply.now effect.now self.old.rows.items }
        ensures board { IsBoard self.new }
        ensures ok { OnOk result ((actor : UnitName) → place_on self.old actor ≡ Some place →
            IsBooked actor call.now reply.now effect.now self.old self.new) }
        ensures kept { OnErr result (IsKept self.old self.new) }
    {
        if let Some((number, s, privileges)) = child_by(call, reply) {
            return self.make_child(place, number, s, privileges);
        }
        if let Some((number, filter)) = managed_sub_by(call, reply) {
            return self.enrol_managed(place, filter, number);
        }
        match closed_by(call, reply) {
            Some(h) => self.book_close(place, h, effect),
            None => self.book_plain(place, call, reply, effect),
        }
    }

    /// Takes in an entry: a call of the unit whose place this is, with the answer of the row there.
    /// Without memory the tables agree with the journal as before.
    pub fn book(
        &mut self,
        place: Option<usize>,
        call: &Call,
        reply: &Reply,
        effect: &Effect,
    ) -> Result<(), NoMemory>
        requires board { IsBoard self.old }
        requires seated { (actor : UnitName) × (place_on self.old actor ≡ place) }
        requires right { answer_from (row_by self.old place) call.now
            ≡ (reply.now, effect.now) }
        ensures board { IsBoard self.new }
        ensures ok { OnOk result ((actor : UnitName) → place_on self.old actor ≡ place →
            IsBooked actor call.now reply.now effect.now self.old self.new) }
        ensures kept { OnErr result (IsKept self.old self.new) }
    {
        match place {
            Some(place) => self.book_at(place, call, reply, effect),
            None => Ok(()),
        }
    }

    /// Makes a call that the unit at a place makes of its own state alone, and puts what it is told
    /// in place of an Ok; false where it is another. Where memory is wanting, at most the labels are
    /// others.
    pub fn make_alone(
        &mut self,
        place: Option<usize>,
        call: &Call,
        reply: &mut Reply,
    ) -> Result<bool, NoMemory>
        requires board { IsBoard self.old }
        requires seated { (actor : UnitName) × (place_on self.old actor ≡ place) }
        requires ok { reply.old ≡ Reply.Ok }
        ensures board { IsBoard self.new }
        ensures made { IfOk result (λ made. MakesAlone place call.now (told_if made reply.new)
            self.old self.new) }
        ensures same { OnErr result (IsRenewed self.old self.new) }
    {
        match place {
            Some(place) => make_at(self.rows.as_mut_slice(), place, call, reply),
            None => Ok(false),
        }
    }

    /// The part that a call of the unit at a place shows, where it is a read that shows no other, and
    /// the part bears no privilege. The tables tell of such a read without a change. Of which reads a
    /// part is told is left open: `make_alone` makes any.
    pub fn seen_alone<'a>(&'a self, place: Option<usize>, call: &'a Call) -> Option<&'a Part>
        requires board { IsBoard self.now }
        requires seated { (actor : UnitName) × (place_on self.now actor ≡ place) }
        ensures { IfSome (option_copied result) (λ part.
            IsMade place call.now (shows_one part, Effect.Nothing) self.now self.now) }
    {
        self.row(place)?.local.seen_alone(call)
    }

    /// Makes a call that creates an event or drops one, where the unit at a place accepts it; None
    /// where it doesn't, or there is no such row. Where memory is wanting, at most the labels are
    /// others.
    pub fn make_brief(
        &mut self,
        place: Option<usize>,
        brief: Brief,
    ) -> Result<Option<Accepted>, NoMemory>
        requires board { IsBoard self.old }
        requires seated { (actor : UnitName) × (place_on self.old actor ≡ place) }
        ensures board { IsBoard self.new }
        ensures made { IfOk result (λ made. MakesAlone place (brief_call brief)
            (option_map accepted_reply made) self.old self.new) }
        ensures same { OnErr result (IsRenewed self.old self.new) }
    {
        match place {
            Some(place) => make_brief_at(self.rows.as_mut_slice(), place, brief),
            None => Ok(None),
        }
    }

    /// Hands the unit at a place, which asks for it, the first event that is left to it. Where memory
    /// is wanting, nothing is another.
    pub fn give(&mut self, place: usize) -> Result<Received, NoMemory>
        requires board { IsBoard self.old }
        requires seated { (actor : UnitName) × (place_on self.old actor ≡ Some place) }
        ensures board { IsBoard self.new }
        ensures made { IfOk result (λ received. IsMade (Some place) Get (received_answer received)
            self.old self.new) }
        ensures same { OnErr result (IsRenewed self.old self.new) }
    {
        give_at(self.rows.as_mut_slice(), place)
    }

    /// Publishes or releases a handle of the unit whose place this is, where that is answered with
    /// Ok, puts the effect there, and tells so. Where it is refused, at most the labels are others.
    /// Without memory the handle may be closed, and nothing is told of the journal.
    pub fn close_handle(
        &mut self,
        place: Option<usize>,
        h: u32,
        how: Close,
        effect: &mut Effect,
    ) -> Result<bool, NoMemory>
        requires board { IsBoard self.old }
        requires seated { (actor : UnitName) × (place_on self.old actor ≡ place) }
        ensures board { IsBoard self.new }
        ensures made { IfOk result (λ is. MakesClosing place (closing how h)
            (made_where is effect.new) self.old self.new) }
    {
        match place {
            Some(place) => self.close_at(place, h, how, effect),
            None => Ok(false),
        }
    }

    /// Works out the answer of a call of the unit whose place this is, and takes the entry in.
    /// Without memory the tables agree with the journal as before.
    #[inline(never)]
    fn answer_first(&mut self, place: Option<usize>, call: &Call) -> Result<Answer, NoMemory>
        requires board { IsBoard self.old }
        requires seated { (actor : UnitName) × (place_on self.old actor ≡ place) }
        ensures board { IsBoard self.new }
        ensures made { IfOk result (λ a. IsMade place call.now (a.reply, a.effect)
            self.old self.new) }
        ensures kept { OnErr result (IsKept self.old self.new) }
    {
        let answer = self.answer(place, call)?;
        self.book(place, call, &answer.reply, &answer.effect)?;
        Ok(answer)
    }

    /// Makes a call of the unit whose place this is, but doesn't ask first whether it is one of the
    /// unit's own state alone. Without memory the tables agree with the journal as before.
    #[inline(never)]
    pub fn answer_and_book(&mut self, place: Option<usize>, call: &Call) -> Result<Answer, NoMemory>
        requires board { IsBoard self.old }
        requires seated { (actor : UnitName) × (place_on self.old actor ≡ place) }
        ensures board { IsBoard self.new }
        ensures made { IfOk result (λ a. IsMade place call.now (a.reply, a.effect)
            self.old self.new) }
        ensures kept { OnErr result (IsKept self.old self.new) }
    {
        match (place, call) {
            (Some(place), Call::Get) => Ok(self.give(place)?.answer()),
            _ => self.answer_first(place, call),
        }
    }

    /// Makes a call of the unit whose place this is, and answers it. Without memory the tables agree
    /// with the journal as before.
    pub fn make(&mut self, place: Option<usize>, call: &Call) -> Result<Answer, NoMemory>
        requires board { IsBoard self.old }
        requires seated { (actor : UnitName) × (place_on self.old actor ≡ place) }
        ensures board { IsBoard self.new }
        ensures made { IfOk result (λ a. IsMade place call.now (a.reply, a.effect)
            self.old self.new) }
        ensures kept { OnErr result (IsKept self.old self.new) }
    {
        let mut reply = Reply::Ok;
        if self.make_alone(place, call, &mut reply)? {
            return Ok(Answer {
                reply,
                effect: Effect::Nothing,
            });
        }
        self.answer_and_book(place, call)
    }
}
