//! The tables of a machine, which keep no journal.

ghost use Rattle.std.specs.Prelude.{◌≡◌, ◌^◌, ◌<◌, ◌∷◌, [], length, IfOk, IfSome, OnErr, OnOk, Some, map, option_copied};
ghost use Rattle.std.specs.Option.{option_map};
ghost use Rattle.df_local.specs.Brief.{accepted_reply, brief_call};
ghost use Rattle.df_local.specs.Locally.{closing, made_where, shows_one, told_if};
ghost use Rattle.df_start.specs.Begun.{begun};
ghost use Rattle.df_tables.specs.Hand.{received_answer};
ghost use Rattle.df_tables.specs.Table.{rows_from};
ghost use Rattle.df_unit.specs.declared.call.Call.TheVariants.{Get};
ghost use Rattle.df_unit.specs.declared.entry.Effect.{Effect};
ghost use Rattle.df_unit.specs.declared.entry.Entry.TheVariants.{Emitted};
ghost use Rattle.df_unit.specs.declared.name.UnitName.{UnitName};
ghost use Rattle.df_unit.specs.declared.name.UnitName.TheVariants.{Root};
ghost use Rattle.df_machine.specs.Journal.{State, answer_in, appended, contamination_in};
ghost use Rattle.df_machine.specs.Tables.{AgreesWith, IsStep, Steps, StepsAlone, StepsClosing, place_in};

use df_label::Label;
use df_local::{Accepted, Answer, Brief, Close};
use df_memory::NoMemory;
use df_part::Part;
use df_start::{RootStart, Start};
use df_tables::{Board, Received, Unit, first_unit};
use df_unit::{Call, Commit, Effect, Path, Reply, UnitName};
use std::alloc::Global;

/// The tables of a machine. The journal of which they tell is kept by the caller, or by nobody.
#[derive(Drop)]
pub struct Tables {
    pub(crate) board: Board,
}

/// The rows of the roots as they begin, root 0 first.
fn first_units(alloc: Global, roots: &[RootStart]) -> Result<Vec<Unit>, NoMemory>
    requires { length roots.now < 2 ^ 32 }
    ensures { IfOk result (λ units. units.items ≡ rows_from 0 (map begun roots.now)) }
{
    let mut units = Vec::with_capacity(alloc, roots.len())?;
    for (number, root) in roots.iter().enumerate() {
        let label = root.label.copy()?;
        let privileges = root.privileges.copy()?;
        units.push(first_unit(alloc, number as u32, label, privileges)?)?;
    }
    Ok(units)
}

impl Tables {
    /// The tables of a machine whose journal is empty.
    pub fn begin(alloc: Global, start: &Start) -> Result<Tables, NoMemory>
        ensures { IfOk result (AgreesWith (start.now, [])) }
    {
        let units = first_units(alloc, start.as_slice())?;
        let board = Board::new(alloc, units)?;
        Ok(Tables { board })
    }

    /// The place of a unit's row, where it has one.
    pub fn place(&self, unit: &UnitName) -> Option<usize>
        requires { (core : State) × AgreesWith core self.now }
        ensures { result ≡ place_in self.now unit.now }
    {
        self.board.place(unit)
    }

    /// The place of the row of the root of this number, where it has one.
    pub fn root(&self, number: u32) -> Option<usize>
        requires { (core : State) × AgreesWith core self.now }
        ensures { result ≡ place_in self.now (Root (number ∷ [])) }
    {
        match self.board.root(number) {
            Some(place) => Some(place),
            None => self.board.place(&UnitName::Root(Path::root(number))),
        }
    }

    /// The contamination of the unit whose row is at a place; none where there isn't one.
    pub fn contamination(&self, place: Option<usize>) -> Option<&Label>
        ensures { (core : State) (unit : UnitName) → AgreesWith core self.now →
            place ≡ place_in self.now unit →
            option_copied result ≡ contamination_in core unit }
    {
        match self.board.row(place) {
            Some(unit) => Some(unit.local.contamination()),
            None => None,
        }
    }

    /// Makes a call for the unit at a place, and answers it. Whatever journal the tables agreed
    /// with, they agree with it and the call's entry. Without memory they agree with what they
    /// agreed with.
    pub fn step(&mut self, place: Option<usize>, call: &Call) -> Result<Answer, NoMemory>
        requires agrees { (core : State) × AgreesWith core self.old }
        requires seated { (actor : UnitName) × (place ≡ place_in self.old actor) }
        ensures answer { IfOk result (λ answer. (core : State) (actor : UnitName) →
            AgreesWith core self.old → place ≡ place_in self.old actor →
            answer_in core actor call.now ≡ (answer.reply, answer.effect)) }
        ensures entry { IfOk result (λ _. (core : State) (actor : UnitName) →
            AgreesWith core self.old → place ≡ place_in self.old actor →
            AgreesWith (appended actor call.now core) self.new) }
        ensures kept { OnErr result ((core : State) → AgreesWith core self.old →
            AgreesWith core self.new) }
    {
        self.board.make(place, call)
    }

    /// Makes a call that the unit at a place makes of its own state alone, and puts what it is told
    /// in place of an Ok; false, and nothing is made, where the call is another or there is no such
    /// row. Which calls are made here is left open: `step_other` makes any. Without memory the tables
    /// agree with what they agreed with.
    pub fn step_alone(
        &mut self,
        place: Option<usize>,
        call: &Call,
        reply: &mut Reply,
    ) -> Result<bool, NoMemory>
        requires agrees { (core : State) × AgreesWith core self.old }
        requires seated { (actor : UnitName) × (place ≡ place_in self.old actor) }
        requires ok { reply.old ≡ Reply.Ok }
        ensures made { IfOk result (λ made. StepsAlone place call.now (told_if made reply.new)
            self.old self.new) }
        ensures kept { OnErr result ((core : State) → AgreesWith core self.old →
            AgreesWith core self.new) }
    {
        self.board.make_alone(place, call, reply)
    }

    /// The part that a call of the unit at a place shows, where it is a read that shows no other, and
    /// the part bears no privilege. The tables agree with the journal behind such a read as they are.
    /// Of which reads a part is told is left open: `step_alone` makes any.
    pub fn seen_alone<'a>(&'a self, place: Option<usize>, call: &'a Call) -> Option<&'a Part>
        requires agrees { (core : State) × AgreesWith core self.now }
        requires seated { (actor : UnitName) × (place ≡ place_in self.now actor) }
        ensures { IfSome (option_copied result) (λ part.
            Steps place call.now (shows_one part, Effect.Nothing) self.now self.now) }
    {
        self.board.seen_alone(place, call)
    }

    /// Hands the unit at a place, which asks for it, the first event that is left to it. Without
    /// memory the tables agree with what they agreed with.
    pub fn give(&mut self, place: usize) -> Result<Received, NoMemory>
        requires agrees { (core : State) × AgreesWith core self.old }
        requires seated { (actor : UnitName) × (Some place ≡ place_in self.old actor) }
        ensures made { IfOk result (λ received.
            Steps (Some place) Get (received_answer received) self.old self.new) }
        ensures kept { OnErr result ((core : State) → AgreesWith core self.old →
            AgreesWith core self.new) }
    {
        self.board.give(place)
    }

    /// Makes a call that creates an event or drops one, where the unit at a place accepts it; none,
    /// and nothing is made, where it doesn't or there is no such row. Without memory the tables
    /// agree with what they agreed with.
    pub fn step_brief(
        &mut self,
        place: Option<usize>,
        brief: Brief,
    ) -> Result<Option<Accepted>, NoMemory>
        requires agrees { (core : State) × AgreesWith core self.old }
        requires seated { (actor : UnitName) × (place ≡ place_in self.old actor) }
        ensures made { IfOk result (λ made. StepsAlone place (brief_call brief)
            (option_map accepted_reply made) self.old self.new) }
        ensures kept { OnErr result ((core : State) → AgreesWith core self.old →
            AgreesWith core self.new) }
    {
        self.board.make_brief(place, brief)
    }

    /// Makes any call, as `step` does, but doesn't ask first whether it is one of the unit's own
    /// state alone.
    pub fn step_other(&mut self, place: Option<usize>, call: &Call) -> Result<Answer, NoMemory>
        requires agrees { (core : State) × AgreesWith core self.old }
        requires seated { (actor : UnitName) × (place ≡ place_in self.old actor) }
        ensures step { IfOk result (λ answer. (core : State) (actor : UnitName) →
            AgreesWith core self.old → place ≡ place_in self.old actor →
            IsStep core actor call.now (answer.reply, answer.effect) self.new) }
        ensures kept { OnErr result ((core : State) → AgreesWith core self.old →
            AgreesWith core self.new) }
    {
        self.board.answer_and_book(place, call)
    }

    /// Publishes or releases a handle of the unit at a place, where that is answered with Ok, puts
    /// the effect there, and tells so. Where it is refused, the tables agree with what they agreed
    /// with. Without memory nothing is told of them.
    pub fn close_handle(
        &mut self,
        place: Option<usize>,
        h: u32,
        how: Close,
        effect: &mut Effect,
    ) -> Result<bool, NoMemory>
        requires agrees { (core : State) × AgreesWith core self.old }
        requires seated { (actor : UnitName) × (place ≡ place_in self.old actor) }
        ensures { IfOk result (λ is. StepsClosing place (closing how h)
            (made_where is effect.new) self.old self.new) }
    {
        self.board.close_handle(place, h, how, effect)
    }

    /// Takes in an emitted commit. Whatever journal the tables agreed with, they agree with it and
    /// the emitted entry. Without memory they agree with what they agreed with.
    pub fn emitted(&mut self, commit: &Commit) -> Result<(), NoMemory>
        requires { (core : State) × AgreesWith core self.old }
        ensures entry { OnOk result ((core : State) → AgreesWith core self.old →
            AgreesWith (core.0, Emitted commit.now ∷ core.1) self.new) }
        ensures kept { OnErr result ((core : State) → AgreesWith core self.old →
            AgreesWith core self.new) }
    {
        self.board.emit(commit)?;
        Ok(())
    }
}
