//! A crew: a machine whose units have brains.

ghost use Rattle.std.specs.Prelude.{◌≡◌, ◌↔◌, ◌+◌, [], length, Err, IfErr, IfOk, IsTrue, None, OnErr, OnOk, Some, is_some, option_copied, true};
ghost use Rattle.df_machine.specs.Journal.{firsts, local_of};
ghost use Rattle.df_rules.specs.Follows.{began_with, brain_of, replies_of, root_began};
ghost use Rattle.df_crew.specs.declared.crew.BeginRefused.TheVariants.{NoSuchUnit};
ghost use Rattle.df_booking.specs.Booked.{IsCurrent, booked};
ghost use Rattle.df_crew.specs.Booking.{IsRefused, IsUntold};
ghost use Rattle.df_crew.specs.Growing.{IsMore};
ghost use Rattle.df_booking.specs.CrewState.{mind_in};
ghost use Rattle.df_crew.specs.Since.{WasCurrent};
ghost use Rattle.df_booking.specs.Turns.{turned};
ghost use Rattle.df_unit.specs.Rows.{is_instance};
ghost use Rattle.df_unit.specs.declared.name.UnitName.{UnitName};
ghost use Rattle.df_rules.specs.Start.{rows};

use crate::base::Base;
use crate::since::has_entry;
use df_booking::{book_at, book_kept, seed_name};
use df_brain::{Brain, Last};
use df_kept::Kept;
use df_local::Local;
use df_machine::Core;
use df_memory::NoMemory;
use df_start::Start;
use df_turn::{Going, Mind, Shared, Turn, TurnParts};
use df_unit::{Path, UnitName};
use std::alloc::Global;
use std::marker::Model;

/// Why no turn was begun.
#[derive(Clone, Copy, Debug, PartialEq, Eq)]
pub enum BeginRefused {
    NoSuchUnit,
    NoMemory,
}

/// Why a turn was not booked.
#[derive(Clone, Copy, Debug, PartialEq, Eq)]
pub enum BookCause {
    /// The unit doesn't exist, or its own state or its brain is not as the turn began.
    Stale,
    NoMemory,
}

/// A turn that was not booked. Nothing has changed.
#[derive(Drop)]
pub struct NotTurned<B: Brain> {
    pub turn: Turn<B>,
    pub cause: BookCause,
}

/// A machine whose units have brains. A contract sees it as the machine's start and journal, and
/// the brains with which the roots began.
#[derive(Drop)]
pub struct Crew<B: Brain> {
    core: Core,
    brains: Vec<B>,
    minds: Kept<Mind<B>>,
    seeds: Kept<B>,
    pub(crate) alloc: Global,
}

impl<B: Brain> Model for Crew<B> {
    ghost use Rattle.df_booking.specs.CrewState.{CrewState, crew_code};
    ghost use Rattle.df_booking.specs.Manned.{IsManned};
    ghost use Rattle.df_rules.specs.Follows.{brain_of};

    ghost Value = { CrewState B };

    ghost coded = { crew_code B.code };

    ghost view = { λ c. record { core = c.core; brains = c.brains.items } };

    ghost invariant = { λ c. IsManned (brain_of B.next B.instance) c.brains.items c.minds c.seeds
        c.core };
}

/// The state with which a root's brain began.
fn root_state<'a, B: Brain>(brains: &'a [B], path: &Path) -> Option<&'a B>
    ensures { option_copied result ≡ root_began brains.now path.now }
{
    match path.as_slice() {
        [number] => brains.get(*number as usize),
        _ => None,
    }
}

impl<B: Brain> Crew<B> {
    ghost use Rattle.df_booking.specs.code.Renewal.{IsUnderWay};
    ghost use Rattle.df_crew.specs.Locally.{IsBase};
    ghost use Rattle.df_booking.specs.Manned.{IsFollowed};
    ghost use Rattle.df_turn.specs.code.Going.{IsEnded};

    /// A crew whose journal is empty, with a brain for each root.
    pub fn start(alloc: Global, start: Start, brains: Vec<B>) -> Result<Crew<B>, NoMemory>
        requires { length brains.items ≡ length start }
        ensures { IfOk result (λ c. c ≡ record { core = (start, []); brains = brains.items }) }
    {
        let core = Core::start(alloc, start)?;
        let minds = Kept::new(alloc);
        let seeds = Kept::new(alloc);
        Ok(Crew {
            core,
            brains,
            minds,
            seeds,
            alloc,
        })
    }

    /// The machine. Its journal is legal, nothing was emitted into it, and each unit makes the
    /// calls that its brain wants.
    pub fn core(&self) -> &Core
        ensures core { result.now ≡ self.now.core }
        ensures followed { IsFollowed (brain_of B.next B.instance) self.now.brains self.now.core }
    {
        &self.core
    }

    /// The state with which a unit's brain began. It takes memory for an instance alone.
    fn first_state(&self, unit: &UnitName) -> Result<Option<&B>, NoMemory>
        requires { is_some (local_of self.now.core unit.now) ≡ true }
        ensures state { IfOk result (λ state. option_copied state
            ≡ began_with (brain_of B.next B.instance) rows (firsts self.now.core.0)
            self.now.brains self.now.core.1 unit.now) }
        ensures instance { OnErr result (is_instance unit.now ≡ true) }
    {
        match unit {
            UnitName::Root(path) => Ok(root_state(self.brains.as_slice(), path)),
            UnitName::Managed { owner, sub, .. } => {
                Ok(self.seeds.get(&seed_name(self.alloc, owner, *sub)?))
            }
        }
    }

    /// A unit's brain. It is copied where the unit has not taken a turn yet.
    pub(crate) fn mind(&self, unit: &UnitName) -> Result<Mind<B>, NoMemory>
        requires { is_some (local_of self.now.core unit.now) ≡ true }
        ensures { IfOk result (λ m. mind_in (brain_of B.next B.instance) self.now.brains
            self.now.core unit.now ≡ Some m) }
    {
        if let Some(mind) = self.minds.get(unit) {
            return mind.share();
        }
        let state = self.first_state(unit)?.unwrap();
        Ok(Mind::new(Shared::new(self.alloc, state.copy()?)?, Last::Start))
    }

    /// Whether this is a unit's brain.
    fn has_mind(&self, unit: &UnitName, mind: &Mind<B>) -> Result<bool, NoMemory>
        requires { is_some (local_of self.now.core unit.now) ≡ true }
        ensures is { IfOk result (λ b. IsTrue b ↔ (mind_in (brain_of B.next B.instance)
            self.now.brains self.now.core unit.now ≡ Some mind.now)) }
        ensures instance { OnErr result (is_instance unit.now ≡ true) }
        ensures untold { OnErr result (replies_of unit.now self.now.core.1 ≡ []) }
    {
        if let Some(here) = self.minds.get(unit) {
            return Ok(here.same(mind));
        }
        let state = self.first_state(unit)?.unwrap();
        Ok(mind.is_first(state))
    }

    /// What a turn of a unit begins from. It costs a copy of the unit; its brain is shared, but for
    /// a copy before its first turn.
    pub fn base(&self, unit: &UnitName) -> Result<Base<B>, BeginRefused>
        ensures base { IfOk result (λ b. IsBase (brain_of B.next B.instance) self.now.brains
            self.now.core unit.now b) }
        ensures absent { (result ≡ Err NoSuchUnit) ↔ (local_of self.now.core unit.now ≡ None) }
    {
        let Some(local) = self.core.local(unit) else {
            return Err(BeginRefused::NoSuchUnit);
        };
        match self.base_of(local, unit) {
            Ok(base) => Ok(base),
            Err(NoMemory) => Err(BeginRefused::NoMemory),
        }
    }

    /// What a turn of a unit that exists begins from.
    fn base_of(&self, local: &Local, unit: &UnitName) -> Result<Base<B>, NoMemory>
        requires { local_of self.now.core unit.now ≡ Some local.now }
        ensures { IfOk result (λ b. IsBase (brain_of B.next B.instance) self.now.brains
            self.now.core unit.now b) }
    {
        let mind = self.mind(unit)?;
        let unit = local.copy()?;
        Ok(Base { unit, mind })
    }

    /// Whether the unit and its brain are as the turn began.
    fn is_current(&self, turn: &Turn<B>) -> Result<bool, NoMemory>
        ensures is { IfOk result (λ b.
            IsTrue b ↔ IsCurrent (brain_of B.next B.instance) turn.now self.now) }
        ensures untold { OnErr result (IsUntold turn.now self.now) }
    {
        let unit = turn.unit();
        let Some(local) = self.core.local(unit.name()) else {
            return Ok(false);
        };
        if !local.same(unit) {
            return Ok(false);
        }
        self.has_mind(unit.name(), turn.mind())
    }

    /// Books a turn whose local calls are made, or gives it back where there is no memory.
    fn book_going(&mut self, base: &Mind<B>, going: Going<B>) -> Result<u64, Going<B>>
        requires under_way { IsUnderWay (brain_of B.next B.instance) self.old.brains base.now going
            self.old.core }
        requires ended { IsEnded going }
        ensures ok { OnOk result (self.new
            ≡ turned (brain_of B.next B.instance) going.run.base.unit self.old) }
        ensures count { IfOk result (λ n. length self.new.core.1 ≡ n + length self.old.core.1) }
        ensures unchanged { OnErr result (self.new ≡ self.old) }
        ensures back { IfErr result (λ g. g ≡ going) }
    {
        let (minds, seeds) = (&mut self.minds, &mut self.seeds);
        book_kept(self.alloc, &mut self.core, minds, seeds, base, going)
    }

    /// Books a turn that was advanced and is current, or gives it back where there is no memory.
    fn book_ready(&mut self, turn: Turn<B>) -> Result<u64, Turn<B>>
        requires ready { turn.is_ready ≡ true }
        requires current { IsCurrent (brain_of B.next B.instance) turn self.old }
        ensures ok { OnOk result (self.new
            ≡ turned (brain_of B.next B.instance) turn.unit.unit self.old) }
        ensures count { IfOk result (λ n. length self.new.core.1 ≡ n + length self.old.core.1) }
        ensures unchanged { OnErr result (self.new ≡ self.old) }
        ensures back { IfErr result (λ t. t ≡ turn) }
    {
        let TurnParts {
            base,
            going,
            is_ready,
        } = turn.into_parts();
        match self.book_going(&base, going) {
            Ok(count) => {
                drop(base);
                Ok(count)
            }
            Err(going) => Err(Turn::of_parts(
                self.alloc,
                TurnParts {
                    base,
                    going,
                    is_ready,
                },
            )),
        }
    }

    /// Gives a unit its first turn.
    #[inline(never)]
    fn take_first_turn(&mut self, unit: &UnitName) -> Result<(), NoMemory>
        ensures turned { OnOk result (self.new
            ≡ turned (brain_of B.next B.instance) unit.now self.old) }
        ensures brain { OnOk result (is_some (local_of self.old.core unit.now) ≡ true →
            is_some (mind_in (brain_of B.next B.instance) self.old.brains self.old.core unit.now)
            ≡ true) }
        ensures unchanged { OnErr result (self.new ≡ self.old) }
    {
        let Some(local) = self.core.local(unit) else {
            return Ok(());
        };
        let mind = self.mind(unit)?;
        let going = Going::advanced(self.alloc, local, &mind)?;
        match self.book_going(&mind, going) {
            Ok(_) => Ok(()),
            Err(going) => {
                going.let_go();
                Err(NoMemory)
            }
        }
    }

    /// Gives a unit a turn, which is advanced and booked at once. Who doesn't exist does nothing,
    /// and who is known to wait, with no delivery left, isn't asked.
    pub fn take_turn(&mut self, unit: &UnitName) -> Result<(), NoMemory>
        ensures turned { OnOk result (self.new
            ≡ turned (brain_of B.next B.instance) unit.now self.old) }
        ensures brain { OnOk result (is_some (local_of self.old.core unit.now) ≡ true →
            is_some (mind_in (brain_of B.next B.instance) self.old.brains self.old.core unit.now)
            ≡ true) }
        ensures unchanged { OnErr result (self.new ≡ self.old) }
    {
        let Some(place) = self.minds.place(unit) else {
            return self.take_first_turn(unit);
        };
        let mind = self.minds.at(place);
        if mind.is_known_to_wait() && !self.core.has_delivery(unit) {
            return Ok(());
        }
        let Some(local) = self.core.local(unit) else {
            return Ok(());
        };
        let going = Going::advanced(self.alloc, local, mind)?;
        let (minds, seeds) = (&mut self.minds, &mut self.seeds);
        match book_at(self.alloc, &mut self.core, minds, seeds, place, going) {
            Ok(_) => Ok(()),
            Err(going) => {
                going.let_go();
                Err(NoMemory)
            }
        }
    }

    /// Books a turn as `book` does, where the unit and its brain are known to be as the turn began:
    /// they aren't compared. It gives the turn back where there is no memory.
    fn book_current(&mut self, turn: Turn<B>) -> Result<u64, Turn<B>>
        requires { IsCurrent (brain_of B.next B.instance) turn self.old }
        ensures ok { OnOk result (self.new
            ≡ booked (brain_of B.next B.instance) turn self.old) }
        ensures count { IfOk result (λ n. length self.new.core.1 ≡ n + length self.old.core.1) }
        ensures unchanged { OnErr result (self.new ≡ self.old) }
        ensures back { IfErr result (λ t. t ≡ turn) }
    {
        if !turn.is_ready() {
            turn.let_go();
            return Ok(0);
        }
        self.book_ready(turn)
    }

    /// Books a turn: its local calls, and then the shared call that is wanted, or a get where the
    /// turn waits and a delivery is left. It answers the number of entries. A turn that was not
    /// advanced has none.
    #[tactic(auto, using(crate::proofs::Growing::more_refl))]
    pub fn book(&mut self, turn: Turn<B>) -> Result<u64, NotTurned<B>>
        ensures ok { OnOk result (self.new
            ≡ booked (brain_of B.next B.instance) turn self.old) }
        ensures more { IsMore self.old self.new }
        ensures count { IfOk result (λ n. length self.new.core.1 ≡ n + length self.old.core.1) }
        ensures current { OnOk result (IsCurrent (brain_of B.next B.instance) turn self.old) }
        ensures refused { IfErr result (λ e.
            IsRefused e.cause (brain_of B.next B.instance) turn self.old) }
        ensures unchanged { OnErr result (self.new ≡ self.old) }
        ensures back { IfErr result (λ e. e.turn ≡ turn) }
    {
        let Ok(current) = self.is_current(&turn) else {
            return Err(NotTurned {
                turn,
                cause: BookCause::NoMemory,
            });
        };
        if !current {
            return Err(NotTurned {
                turn,
                cause: BookCause::Stale,
            });
        }
        self.book_there(turn)
    }

    /// Books a turn whose unit and brain are as the turn began.
    #[tactic(auto, using(crate::proofs::Growing::more_refl))]
    fn book_there(&mut self, turn: Turn<B>) -> Result<u64, NotTurned<B>>
        requires { IsCurrent (brain_of B.next B.instance) turn self.old }
        ensures ok { OnOk result (self.new
            ≡ booked (brain_of B.next B.instance) turn self.old) }
        ensures more { IsMore self.old self.new }
        ensures count { IfOk result (λ n. length self.new.core.1 ≡ n + length self.old.core.1) }
        ensures short { IfErr result (λ e. e.cause ≡ BookCause.NoMemory) }
        ensures unchanged { OnErr result (self.new ≡ self.old) }
        ensures back { IfErr result (λ e. e.turn ≡ turn) }
    {
        match self.book_current(turn) {
            Ok(count) => Ok(count),
            Err(turn) => Err(NotTurned {
                turn,
                cause: BookCause::NoMemory,
            }),
        }
    }

    /// Books a turn as `book` does, where it is known that the turn began when the journal had
    /// `count` entries. The unit and its brain are compared only where the unit made one of the
    /// entries behind these.
    #[tactic(auto, using(crate::proofs::Growing::more_refl))]
    pub fn book_since(&mut self, turn: Turn<B>, count: u64) -> Result<u64, NotTurned<B>>
        requires { WasCurrent (brain_of B.next B.instance) turn count self.old }
        ensures ok { OnOk result (self.new
            ≡ booked (brain_of B.next B.instance) turn self.old) }
        ensures more { IsMore self.old self.new }
        ensures count { IfOk result (λ n. length self.new.core.1 ≡ n + length self.old.core.1) }
        ensures current { OnOk result (IsCurrent (brain_of B.next B.instance) turn self.old) }
        ensures refused { IfErr result (λ e.
            IsRefused e.cause (brain_of B.next B.instance) turn self.old) }
        ensures unchanged { OnErr result (self.new ≡ self.old) }
        ensures back { IfErr result (λ e. e.turn ≡ turn) }
    {
        let behind = &self.core.journal()[count as usize..];
        if has_entry(turn.unit().name(), behind) {
            return self.book(turn);
        }
        self.book_there(turn)
    }
}
