//! A commit in the tables: to whom it is to be handed, and what it leaves.

ghost use Rattle.std.specs.Prelude.{◌≡◌, ◌↔◌, ◌<◌, ◌+◌, ◌^◌, ◌++◌, Some, IfOk, OnErr, OnOk, length, map, vec_len};
ghost use Rattle.std.specs.List.{All, Contains};
ghost use Rattle.std.specs.List.Sorted.{IsStrictlySortedBy};
ghost use Rattle.df_index.specs.Due.{Pair, pair_cmp};
ghost use Rattle.df_index.specs.Filter.{matches};
ghost use Rattle.df_index.specs.IndexState.{IsReceiver};
ghost use Rattle.df_local.specs.Locally.{closing, made_where};
ghost use Rattle.df_part.specs.Contents.{apply};
ghost use Rattle.df_unit.specs.declared.entry.Effect.{Effect};
ghost use Rattle.df_unit.specs.declared.name.UnitName.{UnitName};
ghost use Rattle.df_tables.specs.Births.{IsNewborn, rows_in};
ghost use Rattle.df_tables.specs.Board.{ClosesAt, HasRoom, IsBoard, IsClosed, IsEmitted, IsHandedBoard, IsKept, IsOpenedBoard, IsReady, IsRenewed, IsShutBoard, MakesClosing, TakesClosed, place_on, receivers_by};
ghost use Rattle.df_tables.specs.Calls.{AreCalled, places_by, places_from};
ghost use Rattle.df_tables.specs.Events.{event_place};
ghost use Rattle.df_tables.specs.Labels.{inputs};
ghost use Rattle.df_tables.specs.Table.{parts_of};

use crate::births::Newborn;
use crate::board::Board;
use crate::calling::Called;
use crate::handing::{News, hand_out};
use crate::moves::{close_at, shut_at};
use df_filter::Filter;
use df_index::{Index, Receivers, Steps};
use df_label::Label;
use df_local::Close;
use df_memory::NoMemory;
use df_part::{Contents, Edit};
use df_unit::{Commit, Effect, EventName};
use std::alloc::Global;
use std::marker::Brand;
use std::sync::ledger::{Blank, Ledger};

/// A commit, made ready to be handed over.
#[derive(Drop)]
pub(crate) struct Ready {
    /// The place of its event.
    pub place: usize,
    /// The parts of its event after it.
    pub after: Contents,
    /// The plain units to whom it is to be handed.
    pub to: Receivers,
    /// The instances to which it is to be handed.
    pub called: Called,
    /// All of them that have a row, where instances are among them.
    pub both: Option<Vec<(usize, u32)>>,
}

impl Ready {
    ghost use Rattle.df_tables.specs.Board.{receivers_of};

    /// All receivers that have a row.
    pub(crate) fn receivers(&self) -> &[(usize, u32)]
        ensures { result.now ≡ receivers_of self.now }
    {
        match &self.both {
            Some(both) => both.as_slice(),
            None => self.to.as_slice(),
        }
    }
}

/// The plain units to whom a commit is to be handed.
fn receivers<L: Ledger>(
    index: &mut Index<Filter>,
    labels: &[Label],
    event: usize,
    after: &Contents,
    edit: &Edit,
    blank: Blank,
) -> Result<Receivers, NoMemory>
    requires name { blank.name ≡ L.name }
    requires parts { blank.parts ≡ L.parts }
    requires some { 0 < L.parts }
    requires enrolled { All (λ s. s.unit < length labels.now) index.old.enrolled }
    ensures ascending { IfOk result (λ to. IsStrictlySortedBy pair_cmp to) }
    ensures due { IfOk result (λ to. (p : Pair) → Contains to p
        ↔ IsReceiver matches labels.now index.old event after.now edit.now p) }
    ensures ready { IfOk result (λ to. index.new
        ≡ record index.old { ready = Some (event, to) }) }
    ensures unchanged { OnErr result (index.new ≡ index.old) }
{
    let mut steps = Steps::<L>::new(blank);
    index.receivers(labels, event, after, edit, &mut steps)
}

/// Receivers of both kinds, one after another; None where all are plain.
fn both(
    alloc: Global,
    plain: &[(usize, u32)],
    called: &[(usize, u32)],
) -> Result<Option<Vec<(usize, u32)>>, NoMemory>
    ensures { IfOk result (λ both. receivers_by both plain.now ≡ plain.now ++ called.now) }
{
    if called.is_empty() {
        return Ok(None);
    }
    Ok(Some(joined(alloc, plain, called)?))
}

/// Pairs of both lists, one after another.
#[inline(never)]
fn joined(
    alloc: Global,
    plain: &[(usize, u32)],
    called: &[(usize, u32)],
) -> Result<Vec<(usize, u32)>, NoMemory>
    ensures { IfOk result (λ v. v.items ≡ plain.now ++ called.now) }
{
    let mut all = Vec::from_slice(alloc, plain)?;
    all.extend_from_slice(called)?;
    Ok(all)
}

/// The places of instances that have a row.
fn places_of(alloc: Global, pairs: &[(usize, u32)]) -> Result<Vec<usize>, NoMemory>
    ensures { IfOk result (λ v. v.items ≡ map (λ p. p.0) pairs.now) }
{
    let mut places = Vec::new(alloc);
    for pair in pairs {
        places.push(pair.0)?;
    }
    Ok(places)
}

/// The places of the instances to which a commit is to be handed, where there are so many rows.
fn places(alloc: Global, rows: usize, called: &Called) -> Result<Vec<usize>, NoMemory>
    requires { rows + vec_len called.now.born < 2 ^ 64 }
    ensures { IfOk result (λ v. v.items
        ≡ places_by rows called.now.pairs.items (rows_in called.now.born.items)) }
{
    let mut places = places_of(alloc, called.pairs.as_slice())?;
    put_places(rows, called.born.as_slice(), &mut places)?;
    Ok(places)
}

/// Appends the places that rows have behind so many others.
fn put_places(rows: usize, born: &[Newborn], to: &mut Vec<usize>) -> Result<(), NoMemory>
    requires { rows + length born.now < 2 ^ 64 }
    ensures { OnOk result (to.new.items ≡ to.old.items ++ places_from rows (rows_in born.now)) }
{
    let mut place = rows;
    for _ in born {
        to.push(place)?;
        place += 1;
    }
    Ok(())
}

impl Board {
    /// Opens an event, and all labels are those of now.
    fn open_event(&mut self, event: &EventName) -> Result<usize, NoMemory>
        requires { IsBoard self.old }
        ensures board { IsBoard self.new }
        ensures place { IfOk result (λ k. event_place event.now self.new.events ≡ Some k) }
        ensures fresh { OnOk result (self.new.labels.items ≡ inputs self.new.rows.items) }
        ensures opened { IsOpenedBoard event.now self.old self.new }
    {
        let place = self.events.open(event)?;
        self.refresh()?;
        Ok(place)
    }

    /// Makes ready to mark the event at a place as handed to instances, with room for the rows of
    /// those that have none.
    fn make_places(&mut self, place: usize, called: &Called) -> Result<(), NoMemory>
        requires { IsBoard self.old }
        ensures board { IsBoard self.new }
        ensures same { IsRenewed self.old self.new }
        ensures labels { self.new.labels.items ≡ self.old.labels.items }
        ensures room { OnOk result (HasRoom (vec_len called.now.born) self.new) }
        ensures marked { OnOk result (self.new.marks.ready ≡ Some (
          place,
          places_by
              (length self.old.rows.items) called.now.pairs.items
              (rows_in called.now.born.items),
        )) }
    {
        self.make_room(called.born.len())?;
        let places = places(self.alloc, self.rows.len(), called)?;
        self.marks.ready(place, places.as_slice())?;
        Ok(())
    }

    /// Makes ready what is to be handed, whose event has this place, these parts after the commit
    /// and these instances.
    fn make_ready(
        &mut self,
        commit: &Commit,
        place: usize,
        after: Contents,
        called: Called,
    ) -> Result<Ready, NoMemory>
        requires board { IsBoard self.old }
        requires fresh { self.old.labels.items ≡ inputs self.old.rows.items }
        requires place { event_place commit.now.event self.old.events ≡ Some place }
        requires after { after ≡ apply commit.now.edit
            (parts_of commit.now.event self.old.events) }
        requires called { AreCalled self.old.rows.items self.old.managed
            self.old.marks.handed commit.now place after called }
        ensures board { IsBoard self.new }
        ensures ready { IfOk result (λ r. IsReady commit.now self.new r) }
        ensures room { IfOk result (λ r. HasRoom (vec_len r.called.born) self.new) }
        ensures opened { IsOpenedBoard commit.now.event self.old self.new }
    {
        self.make_places(place, &called)?;
        let labels = self.labels.as_slice();
        let edit = &commit.edit;
        let index = &mut self.index;
        let to = receivers::<Brand>(index, labels, place, &after, edit, Blank::new(1))?;
        let both = both(self.alloc, to.as_slice(), called.pairs.as_slice())?;
        Ok(Ready {
            place,
            after,
            to,
            called,
            both,
        })
    }

    /// Makes all ready to hand a commit over.
    pub(crate) fn open(&mut self, commit: &Commit) -> Result<Ready, NoMemory>
        requires { IsBoard self.old }
        ensures board { IsBoard self.new }
        ensures ready { IfOk result (λ r. IsReady commit.now self.new r) }
        ensures room { IfOk result (λ r. HasRoom (vec_len r.called.born) self.new) }
        ensures opened { IsOpenedBoard commit.now.event self.old self.new }
    {
        let place = self.open_event(&commit.event)?;
        let after = self.events.contents(place).applied(&commit.edit)?;
        let called = self.called(place, commit, &after)?;
        self.make_ready(commit, place, after, called)
    }

    /// Books a commit that was handed to all that have a row: its marks, the parts of its event,
    /// and the rows of those who come to exist. Takes no memory.
    pub(crate) fn close(&mut self, ready: Ready)
        requires board { IsBoard self.old }
        requires within { All (λ p. p.0 < length self.old.rows.items) ready.to }
        requires place { ready.place < length self.old.events }
        requires waits { self.old.index.ready ≡ Some (ready.place, ready.to) }
        requires room { HasRoom (vec_len ready.called.born) self.old }
        requires newborn { All IsNewborn ready.called.born.items }
        ensures board { IsBoard self.new }
        ensures closed { IsClosed ready self.old self.new }
    {
        let Ready {
            place,
            after,
            to,
            called,
            both: _,
        } = ready;
        let Called { pairs: _, born } = called;
        self.index.book(place, to);
        self.marks.book();
        self.events.set(place, after);
        self.bear_all(born);
    }

    /// Hands a commit over.
    fn hand_commit(&mut self, commit: &Commit) -> Result<(), NoMemory>
        requires { IsBoard self.old }
        ensures board { IsBoard self.new }
        ensures ok { OnOk result (IsHandedBoard commit.now self.old self.new) }
        ensures opened { OnErr result (IsOpenedBoard commit.now.event self.old self.new) }
    {
        let ready = self.open(commit)?;
        let news = News {
            event: &commit.event,
            after: &ready.after,
            receivers: ready.receivers(),
        };
        let rows = self.rows.as_mut_slice();
        hand_out(rows, &news)?;
        self.close(ready);
        Ok(())
    }

    /// Closes a handle of the unit at a place. Takes no memory.
    fn shut(&mut self, place: usize, h: u32)
        requires board { IsBoard self.old }
        requires within { place < length self.old.rows.items }
        ensures board { IsBoard self.new }
        ensures shut { IsShutBoard place h self.old self.new }
    {
        shut_at(self.rows.as_mut_slice(), place, h);
    }

    /// Takes in an entry with a commit of the unit at a place, which closes a handle.
    fn book_commit(&mut self, place: usize, h: u32, commit: &Commit) -> Result<(), NoMemory>
        requires board { IsBoard self.old }
        requires within { place < length self.old.rows.items }
        ensures board { IsBoard self.new }
        ensures ok { OnOk result (ClosesAt place h (Effect.Commit commit.now)
            self.old self.new) }
        ensures kept { OnErr result (IsKept self.old self.new) }
    {
        self.hand_commit(commit)?;
        self.shut(place, h);
        Ok(())
    }

    /// Takes in an entry of the unit at a place, which closes a handle.
    pub(crate) fn book_close(
        &mut self,
        place: usize,
        h: u32,
        effect: &Effect,
    ) -> Result<(), NoMemory>
        requires board { IsBoard self.old }
        requires within { place < length self.old.rows.items }
        ensures board { IsBoard self.new }
        ensures ok { OnOk result (ClosesAt place h effect.now self.old self.new) }
        ensures kept { OnErr result (IsKept self.old self.new) }
    {
        match effect {
            Effect::Commit(commit) => self.book_commit(place, h, commit),
            _ => {
                self.shut(place, h);
                Ok(())
            }
        }
    }

    /// Takes a handle of the unit at a place out, where a publish or a release is answered with Ok.
    fn take_closed(
        &mut self,
        place: usize,
        h: u32,
        how: Close,
        effect: &mut Effect,
    ) -> Result<bool, NoMemory>
        requires board { IsBoard self.old }
        requires within { place < length self.old.rows.items }
        ensures board { IsBoard self.new }
        ensures taken { IfOk result (λ is. TakesClosed place (closing how h) h
            (made_where is effect.new) self.old self.new) }
    {
        close_at(self.rows.as_mut_slice(), place, h, how, effect)
    }

    /// Publishes or releases a handle of the unit at a place, where that is answered with Ok, puts
    /// the effect there, and tells so.
    pub(crate) fn close_at(
        &mut self,
        place: usize,
        h: u32,
        how: Close,
        effect: &mut Effect,
    ) -> Result<bool, NoMemory>
        requires board { IsBoard self.old }
        requires seated { (actor : UnitName) × (place_on self.old actor ≡ Some place) }
        ensures board { IsBoard self.new }
        ensures made { IfOk result (λ is. MakesClosing (Some place) (closing how h)
            (made_where is effect.new) self.old self.new) }
    {
        if !self.take_closed(place, h, how, effect)? {
            return Ok(false);
        }
        if let Effect::Commit(commit) = effect {
            self.hand_commit(commit)?;
        }
        Ok(true)
    }

    /// Takes in an emitted entry, whose commit is nobody's call. Without memory the tables agree
    /// with the journal as before.
    pub fn emit(&mut self, commit: &Commit) -> Result<(), NoMemory>
        requires { IsBoard self.old }
        ensures board { IsBoard self.new }
        ensures ok { OnOk result (IsEmitted commit.now self.old self.new) }
        ensures kept { OnErr result (IsKept self.old self.new) }
    {
        self.hand_commit(commit)
    }
}
