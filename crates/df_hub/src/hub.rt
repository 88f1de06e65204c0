//! A crew on a desk.

ghost use Rattle.std.specs.Prelude.{◌≡◌, ◌↔◌, ◌+◌, Err, IfErr, IfOk, IfSome, IsOk, List, None, OnErr, OnOk, length};
ghost use mathlib.Core.List.{IsPrefix};
ghost use Rattle.df_booking.specs.Booked.{IsCurrent, booked};
ghost use Rattle.df_booking.specs.Manned.{IsFollowed};
ghost use Rattle.df_crew.specs.Booking.{IsRefused};
ghost use Rattle.df_crew.specs.Growing.{IsMore};
ghost use Rattle.df_crew.specs.Locally.{IsBase, IsBegun};
ghost use Rattle.df_crew.specs.Seen.{core_at, crew_at, origin_of, seen_of};
ghost use Rattle.df_crew.specs.Since.{WasCurrent};
ghost use Rattle.df_crew.specs.declared.crew.BeginRefused.TheVariants.{NoSuchUnit};
ghost use Rattle.df_desk.specs.Pass.{Holds, IsFree, IsNew, longer_list, one_more};
ghost use Rattle.df_hub.specs.Steps.{BeganThere, IsCounted, IsJournal, IsStepped, Looks};
ghost use Rattle.df_machine.specs.Journal.{IsRoll, State, local_of};
ghost use Rattle.df_rules.specs.Follows.{brain_of};
ghost use Rattle.df_unit.specs.declared.name.UnitName.{UnitName};

use df_brain::Brain;
use df_crew::{Base, BeginRefused, Crew, NotTurned, units};
use df_desk::{Desk, Journaled, NotMade, Pass};
use df_memory::NoMemory;
use df_turn::Turn;
use df_unit::UnitName;
use std::alloc::Global;
use std::marker::Model;
use std::sync::Wait;

/// What came of a turn that was booked.
#[derive(Drop)]
pub struct Stepped<B: Brain> {
    /// The unit's next turn, which begins in the journal that the pass has then seen. Where there
    /// is no memory for it, the booking stands all the same.
    pub turn: Result<Turn<B>, NoMemory>,
    /// How many entries were appended.
    pub appended: u64,
    /// How many entries there are then.
    pub entries: u64,
}

/// A crew that threads take in turn, each with a pass of its own.
///
/// Contracts see a hub as its desk: which one it is, and with what start and brains its crew was
/// started. What they promise of a call that waits holds if it returns.
#[derive(Drop)]
pub struct Hub<B: Brain> {
    desk: Desk<Crew<B>>,
    alloc: Global,
}

impl<B: Brain> Model for Hub<B> {
    ghost use Rattle.df_crew.specs.declared.origin.Origin.{Origin};
    ghost use Rattle.df_desk.specs.Pass.{DeskId};

    ghost Value = { DeskId (Origin B) };

    ghost view = { λ h. h.desk };
}

/// The journal of a crew is legal, and follows its brains.
fn follow<B: Brain>(crew: &Crew<B>)
    ensures { IsFollowed (brain_of B.next B.instance) crew.now.brains crew.now.core }
{
    let _machine = crew.core();
}

/// What the next turn of a unit begins from. There may have been no memory for its name.
fn next_base<B: Brain>(
    crew: &Crew<B>,
    unit: Result<UnitName, NoMemory>,
) -> Result<Base<B>, NoMemory>
    ensures { (name : UnitName) → IfOk unit (λ known. known ≡ name) → IfOk result (λ b.
        IsBase (brain_of B.next B.instance) crew.now.brains crew.now.core name b) }
{
    match crew.base(&unit?) {
        Ok(base) => Ok(base),
        Err(_) => Err(NoMemory),
    }
}

/// What a turn that was booked leaves, before its unit's next one is begun.
#[derive(Drop)]
struct Booked<B: Brain> {
    base: Result<Base<B>, NoMemory>,
    appended: u64,
    entries: u64,
}

/// What a turn of a unit leaves that was booked in this crew.
fn left<B: Brain>(crew: &Crew<B>, unit: Result<UnitName, NoMemory>, appended: u64) -> Booked<B>
    ensures base { (name : UnitName) → IfOk unit (λ known. known ≡ name) → IfOk result.base (λ b.
        IsBase (brain_of B.next B.instance) crew.now.brains crew.now.core name b) }
    ensures appended { result.appended ≡ appended }
    ensures entries { result.entries ≡ length (seen_of crew.now) }
{
    Booked {
        base: next_base(crew, unit),
        appended,
        entries: crew.count(),
    }
}

/// The turn of a base, unless there is none or no memory for it.
fn turn_of<B: Brain>(alloc: Global, base: Result<Base<B>, NoMemory>) -> Result<Turn<B>, NoMemory>
    ensures { (bs : List B) (core : State) (u : UnitName) →
        IfOk base (λ b. IsBase (brain_of B.next B.instance) bs core u b) →
        IfOk result (λ t. IsBegun (brain_of B.next B.instance) bs core u t) }
{
    base?.begin(alloc)
}

/// The first turn of a base, unless its unit doesn't exist or there is no memory for it.
fn first_turn<B: Brain>(
    alloc: Global,
    base: Result<Base<B>, BeginRefused>,
) -> Result<Turn<B>, BeginRefused>
    ensures turn { (bs : List B) (core : State) (u : UnitName) →
        IfOk base (λ b. IsBase (brain_of B.next B.instance) bs core u b) →
        IfOk result (λ t. IsBegun (brain_of B.next B.instance) bs core u t) }
    ensures absent { (result ≡ Err NoSuchUnit) ↔ (base ≡ Err NoSuchUnit) }
{
    match base?.begin(alloc) {
        Ok(turn) => Ok(turn),
        Err(NoMemory) => Err(BeginRefused::NoMemory),
    }
}

/// What is answered of a turn that was booked.
fn answer<B: Brain>(alloc: Global, booked: Booked<B>) -> Stepped<B>
    ensures turn { (bs : List B) (core : State) (u : UnitName) →
        IfOk booked.base (λ b. IsBase (brain_of B.next B.instance) bs core u b) →
        IfOk result.turn (λ t. IsBegun (brain_of B.next B.instance) bs core u t) }
    ensures appended { result.appended ≡ booked.appended }
    ensures entries { result.entries ≡ booked.entries }
{
    let Booked {
        base,
        appended,
        entries,
    } = booked;
    Stepped {
        turn: turn_of(alloc, base),
        appended,
        entries,
    }
}

/// Books a turn, which began when the journal had so many entries, where that is known.
fn book_turn<B: Brain>(
    crew: &mut Crew<B>,
    turn: Turn<B>,
    since: Option<u64>,
) -> Result<u64, NotTurned<B>>
    requires { IfSome since (λ count.
        WasCurrent (brain_of B.next B.instance) turn count crew.old) }
    ensures booked { OnOk result (crew.new ≡ booked (brain_of B.next B.instance) turn crew.old) }
    ensures more { IsMore crew.old crew.new }
    ensures count { IfOk result (λ n. length crew.new.core.1 ≡ n + length crew.old.core.1) }
    ensures current { OnOk result (IsCurrent (brain_of B.next B.instance) turn crew.old) }
    ensures refused { IfErr result (λ e.
        IsRefused e.cause (brain_of B.next B.instance) turn crew.old) }
    ensures unchanged { OnErr result (crew.new ≡ crew.old) }
    ensures back { IfErr result (λ e. e.turn ≡ turn) }
{
    match since {
        Some(count) => crew.book_since(turn, count),
        None => crew.book(turn),
    }
}

/// Books a turn of a unit, which began when the journal had so many entries, where that is known,
/// and takes what its next one begins from.
fn book<B: Brain>(
    crew: &mut Crew<B>,
    unit: Result<UnitName, NoMemory>,
    turn: Turn<B>,
    since: Option<u64>,
) -> Result<Booked<B>, NotTurned<B>>
    requires unit { IfOk unit (λ name. name ≡ turn.unit.unit) }
    requires since { IfSome since (λ count.
        WasCurrent (brain_of B.next B.instance) turn count crew.old) }
    ensures more { IsMore crew.old crew.new }
    ensures current { OnOk result (IsCurrent (brain_of B.next B.instance) turn crew.old) }
    ensures booked { OnOk result (crew.new ≡ booked (brain_of B.next B.instance) turn crew.old) }
    ensures counted { IfOk result (λ s.
        IsCounted (seen_of crew.old) (seen_of crew.new) s.appended s.entries) }
    ensures anew { IfOk result (λ s. IfOk s.base (λ b. IsBase (brain_of B.next B.instance)
        crew.new.brains crew.new.core turn.unit.unit b)) }
    ensures refused { IfErr result (λ e.
        IsRefused e.cause (brain_of B.next B.instance) turn crew.old) }
    ensures unchanged { OnErr result (crew.new ≡ crew.old) }
    ensures back { IfErr result (λ e. e.turn ≡ turn) }
{
    match book_turn(crew, turn, since) {
        Ok(appended) => Ok(left(crew, unit, appended)),
        Err(refused) => Err(refused),
    }
}

impl<B: Brain> Hub<B> {
    /// A hub with this crew, and its first pass. There is an error only where there is no memory.
    #[tactic(auto, using(crate::proofs::At::journal_here))]
    pub fn new(alloc: Global, crew: Crew<B>) -> Result<(Hub<B>, Pass<Crew<B>>), NotMade<Crew<B>>>
        ensures origin { IfOk result (λ made. made.0.origin ≡ origin_of crew) }
        ensures free { IfOk result (λ made. IsFree made.0 made.1) }
        ensures new { IfOk result (λ made. IsNew made.1 (seen_of crew)) }
        ensures journal { IsJournal (brain_of B.next B.instance) (origin_of crew) (seen_of crew) }
        ensures back { IfErr result (λ refused. refused.value ≡ crew) }
    {
        follow(&crew);
        let (desk, pass) = Desk::new(alloc, crew)?;
        Ok((Hub { desk, alloc }, pass))
    }

    /// Waits until no other pass has the crew, and takes it. Its journal is legal, and follows its
    /// brains.
    fn take<R: Wait>(&self, rt: &R, pass: &mut Pass<Crew<B>>) -> Crew<B>
        requires { IsFree self.now pass.old }
        ensures holds { Holds self.now pass.new }
        ensures takes { pass.new.takes ≡ one_more pass.old.takes }
        ensures splits { pass.new.splits ≡ pass.old.splits }
        ensures begins { IsPrefix pass.old.seen pass.new.found }
        ensures seen { pass.new.seen ≡ pass.new.found }
        ensures origin { origin_of result ≡ self.now.origin }
        ensures found { seen_of result ≡ pass.new.found }
        ensures followed { IsFollowed (brain_of B.next B.instance) result.brains result.core }
    {
        let crew = self.desk.take(rt, pass);
        follow(&crew);
        crew
    }

    /// Gives the crew back, as it is or with more entries.
    fn give(&self, pass: &mut Pass<Crew<B>>, crew: Crew<B>)
        requires holds { Holds self.now pass.old }
        requires origin { origin_of crew ≡ self.now.origin }
        requires begins { IsPrefix pass.old.seen (seen_of crew) }
        ensures free { IsFree self.now pass.new }
        ensures seen { pass.new.seen ≡ seen_of crew }
        ensures found { pass.new.found ≡ pass.old.found }
        ensures takes { pass.new.takes ≡ pass.old.takes }
        ensures splits { pass.new.splits ≡ pass.old.splits }
    {
        self.desk.give(pass, crew);
    }

    /// A turn of a unit, which begins in the journal that the pass has then seen. It waits until no
    /// other pass has the crew.
    pub fn begin<R: Wait>(
        &self,
        rt: &R,
        pass: &mut Pass<Crew<B>>,
        unit: &UnitName,
    ) -> Result<Turn<B>, BeginRefused>
        requires { IsFree self.now pass.old }
        ensures looks { Looks self.now pass.old pass.new }
        ensures journal { IsJournal (brain_of B.next B.instance) self.now.origin pass.new.seen }
        ensures begun { IfOk result (λ t. IsBegun (brain_of B.next B.instance)
            self.now.origin.brains (core_at self.now.origin pass.new.seen) unit.now t) }
        ensures absent { (result ≡ Err NoSuchUnit)
            ↔ (local_of (core_at self.now.origin pass.new.seen) unit.now ≡ None) }
    {
        let crew = self.take(rt, pass);
        let base = crew.base(unit);
        self.give(pass, crew);
        first_turn(self.alloc, base)
    }

    /// Books a turn at the end of the journal that it finds, and begins the unit's next one. Both
    /// are one booking for all others. It waits until no other pass has the crew.
    pub fn step<R: Wait>(
        &self,
        rt: &R,
        pass: &mut Pass<Crew<B>>,
        turn: Turn<B>,
    ) -> Result<Stepped<B>, NotTurned<B>>
        requires { IsFree self.now pass.old }
        ensures { IsStepped (brain_of B.next B.instance) self.now turn pass.old pass.new result }
    {
        self.step_since(rt, pass, turn, None)
    }

    /// Books a turn as `step` does, where it began in the journal that the pass has seen. The unit
    /// and its brain are compared only where the unit has made an entry since.
    pub fn step_seen<R: Wait>(
        &self,
        rt: &R,
        pass: &mut Pass<Crew<B>>,
        turn: Turn<B>,
    ) -> Result<Stepped<B>, NotTurned<B>>
        requires pass { IsFree self.now pass.old }
        requires turn { IsCurrent (brain_of B.next B.instance) turn
            (crew_at self.now.origin pass.old.seen) }
        ensures { IsStepped (brain_of B.next B.instance) self.now turn pass.old pass.new result }
    {
        let count = pass.count();
        self.step_since(rt, pass, turn, Some(count))
    }

    /// Books a turn, which began in the journal that the pass has seen, where the length of that
    /// is told.
    fn step_since<R: Wait>(
        &self,
        rt: &R,
        pass: &mut Pass<Crew<B>>,
        turn: Turn<B>,
        since: Option<u64>,
    ) -> Result<Stepped<B>, NotTurned<B>>
        requires pass { IsFree self.now pass.old }
        requires since { IfSome since (λ count. BeganThere (brain_of B.next B.instance)
            self.now.origin turn count pass.old.seen) }
        ensures { IsStepped (brain_of B.next B.instance) self.now turn pass.old pass.new result }
    {
        let unit = turn.unit().name().copy();
        let mut crew = self.take(rt, pass);
        let booked = book(&mut crew, unit, turn, since);
        follow(&crew);
        self.give(pass, crew);
        match booked {
            Ok(booked) => Ok(answer(self.alloc, booked)),
            Err(refused) => Err(refused),
        }
    }

    /// The units that exist in the journal that the pass has then seen, in their order. It waits
    /// until no other pass has the crew.
    pub fn units<R: Wait>(
        &self,
        rt: &R,
        pass: &mut Pass<Crew<B>>,
    ) -> Result<Vec<UnitName>, NoMemory>
        requires { IsFree self.now pass.old }
        ensures looks { Looks self.now pass.old pass.new }
        ensures journal { IsJournal (brain_of B.next B.instance) self.now.origin pass.new.seen }
        ensures units { IfOk result (λ units.
            IsRoll (core_at self.now.origin pass.new.seen) units.items) }
    {
        let crew = self.take(rt, pass);
        let units = units(self.alloc, crew.core());
        self.give(pass, crew);
        units
    }

    /// A new pass of this hub, which has seen the same. It takes no memory, so it is always made,
    /// and `NoMemory` never comes.
    pub fn split(&self, pass: &mut Pass<Crew<B>>) -> Result<Pass<Crew<B>>, NoMemory>
        requires { IsFree self.now pass.old }
        ensures made { IsOk result }
        ensures new { IfOk result (λ new. IsFree self.now new × IsNew new pass.old.seen) }
        ensures pass { IsFree self.now pass.new }
        ensures seen { pass.new.seen ≡ pass.old.seen }
        ensures found { pass.new.found ≡ pass.old.found }
        ensures takes { pass.new.takes ≡ pass.old.takes }
        ensures splits { pass.new.splits ≡ one_more pass.old.splits }
    {
        self.desk.split(pass)
    }

    /// Joins the other pass into this one, which has then seen the longer of both journals.
    pub fn join(&self, pass: &mut Pass<Crew<B>>, other: Pass<Crew<B>>)
        requires pass { IsFree self.now pass.old }
        requires other { IsFree self.now other }
        ensures pass { IsFree self.now pass.new }
        ensures seen { pass.new.seen ≡ longer_list pass.old.seen other.seen }
        ensures begins { IsPrefix pass.old.seen pass.new.seen × IsPrefix other.seen pass.new.seen }
        ensures found { pass.new.found ≡ pass.old.found }
        ensures takes { pass.new.takes ≡ pass.old.takes }
        ensures splits { pass.new.splits ≡ pass.old.splits }
    {
        self.desk.join(pass, other);
    }

    /// Waits until no other pass has the crew, and takes it for good: later calls that wait do so
    /// for ever.
    pub fn finish<R: Wait>(&self, rt: &R, pass: Pass<Crew<B>>) -> Crew<B>
        requires { IsFree self.now pass }
        ensures origin { origin_of result ≡ self.now.origin }
        ensures begins { IsPrefix pass.seen (seen_of result) }
    {
        self.desk.finish(rt, pass)
    }
}
