ghost use Rattle.std.specs.Prelude.{◌≡◌, ◌^◌, ◌<◌, ◌∷◌, [], length, false, IfErr, IfOk, IfSome, IsSome, List, MatchBool, None, OnErr, OnOk, map, option_copied, reverse, slice_get, vec_len, vec_capacity};
ghost use Rattle.df_unit.specs.declared.entry.Entry.TheVariants.{Emitted};
ghost use Rattle.df_unit.specs.declared.name.UnitName.{UnitName};
ghost use Rattle.df_local_run.specs.code.Parts.{IsRun, state_of};
ghost use Rattle.df_local_run.specs.Runs.{is_local};
ghost use Rattle.df_machine.specs.Booking.{IsCurrent, IsRefused, booked, reply_booked, with_run};
ghost use Rattle.df_machine.specs.Journal.{AreReceivers, IsLegal, IsRoll, answer_in, appended, has_delivery_in, left_in, local_of};

use crate::tables::Tables;
use crate::taking::{make_room, make_room_for, take_in};
use df_local::Local;
use df_local_run::{LocalRun, RunParts};
use df_memory::NoMemory;
use df_start::Start;
use df_unit::{Call, Commit, Entry, Reply, UnitName};
use std::alloc::Global;
use std::marker::Model;

/// A machine, which a contract sees as its start and its journal with the newest entry first.
#[derive(Drop)]
pub struct Core {
    start: Start,
    journal: Vec<Entry>,
    tables: Tables,
}

impl Model for Core {
    ghost use Rattle.std.specs.Prelude.{reverse};
    ghost use Rattle.std.specs.Coded.{coded×, coded_list};
    ghost use Rattle.df_unit.specs.contracts.entry.Entry as entry;
    ghost use Rattle.df_start.specs.contracts.start.Start as started;
    ghost use Rattle.df_machine.specs.Journal.{State};
    ghost use Rattle.df_machine.specs.Tables.{AgreesWith};

    ghost Value = { State };

    ghost coded = { coded× started.the_row.coded (coded_list entry.the_row.coded) };

    ghost view = { λ c. (c.start, reverse c.journal.items) };

    ghost invariant = { λ c. AgreesWith (c.start, reverse c.journal.items) c.tables };
}

/// A call that was not made, for want of memory. Nothing has changed.
#[derive(Drop)]
pub struct NotStepped {
    pub call: Call,
}

/// A commit that was not appended, for want of memory. Nothing has changed.
#[derive(Drop)]
pub struct NotEmitted {
    pub commit: Commit,
}

/// Why a run was not booked.
#[derive(Clone, Copy, Debug, PartialEq, Eq)]
pub enum BookCause {
    /// The unit's own state is not the one from which the run began.
    Stale,
    NoMemory,
}

/// A run that was not booked, with the shared call that was to follow it. Nothing has changed.
#[derive(Drop)]
pub struct NotBooked {
    pub run: LocalRun,
    pub shared: Option<Call>,
    pub cause: BookCause,
}

impl Core {
    /// A machine whose journal is empty.
    pub fn start(alloc: Global, start: Start) -> Result<Core, NoMemory>
        ensures { IfOk result (λ c. c ≡ (start, [])) }
    {
        let tables = Tables::begin(alloc, &start)?;
        Ok(Core {
            start,
            journal: Vec::new(alloc),
            tables,
        })
    }

    /// The journal, the oldest entry first. It is legal.
    pub fn journal(&self) -> &[Entry]
        ensures journal { reverse result.now ≡ self.now.1 }
        ensures legal { IsLegal self.now }
    {
        self.journal.as_slice()
    }

    /// The newest entry of the journal.
    #[tactic(auto, using(crate::proofs::Journal::last_reverse))]
    pub fn newest(&self) -> Option<&Entry>
        ensures { option_copied result ≡ slice_get self.now.1 0 }
    {
        self.journal.last()
    }

    /// What the machine began with.
    pub fn start_of(&self) -> &Start
        ensures { result.now ≡ self.now.0 }
    {
        &self.start
    }

    /// A unit's own state, where the unit exists.
    pub fn local(&self, name: &UnitName) -> Option<&Local>
        ensures { option_copied result ≡ local_of self.now name.now }
    {
        match self.tables.board.unit(name) {
            Some(unit) => Some(&unit.local),
            None => None,
        }
    }

    /// Whether a unit exists and a delivery is left to it.
    pub fn has_delivery(&self, name: &UnitName) -> bool
        ensures { result ≡ has_delivery_in self.now name.now }
    {
        match self.tables.board.unit(name) {
            Some(unit) => !unit.line.is_empty(),
            None => false,
        }
    }

    /// The number of deliveries that are left to a unit, 0 where it doesn't exist.
    pub fn left(&self, name: &UnitName) -> usize
        ensures { result ≡ left_in self.now name.now }
    {
        match self.tables.board.unit(name) {
            Some(unit) => unit.line.len(),
            None => 0,
        }
    }

    /// The units to which a commit would be handed now, each once for each of its subscriptions
    /// that it reaches. The journal stays.
    pub fn receivers(&mut self, commit: &Commit) -> Result<Vec<UnitName>, NoMemory>
        ensures exact { IfOk result (λ names. AreReceivers commit.now names.items self.old) }
        ensures same { self.new ≡ self.old }
    {
        self.tables.board.receivers(commit)
    }

    /// The unit at a place, from 0, among those that exist, in the order of units.
    pub fn unit_at(&self, k: usize) -> Option<&UnitName>
        ensures place { (names : List UnitName) → IsRoll self.now names →
            option_copied result ≡ slice_get names k }
        ensures roll { (names : List UnitName) × IsRoll self.now names }
    {
        self.tables.board.name_at(k)
    }

    /// Makes a call for a unit: appends one entry, with the answer that the rules give, and answers
    /// its reply.
    pub fn step(&mut self, actor: &UnitName, call: Call) -> Result<Reply, NotStepped>
        ensures entry { OnOk result (self.new ≡ appended actor.now call self.old) }
        ensures reply { IfOk result (λ r. r ≡ (answer_in self.old actor.now call).0) }
        ensures unchanged { OnErr result (self.new ≡ self.old) }
        ensures back { IfErr result (λ e. e.call ≡ call) }
    {
        let Ok(name) = make_room_for(&mut self.journal, actor) else {
            return Err(NotStepped { call });
        };
        let Ok(taken) = take_in(&mut self.tables.board, actor, &call) else {
            return Err(NotStepped { call });
        };
        self.journal.push_reserved(Entry::Done {
            actor: name,
            call,
            reply: taken.reply,
            effect: taken.effect,
        });
        Ok(taken.kept)
    }

    /// Appends the entries of a run, and then that of the unit's shared call, if there is one, at
    /// once, and answers the shared call's reply. Stale where the unit's own state is not the one
    /// from which the run began.
    pub fn book(&mut self, run: LocalRun, shared: Option<Call>) -> Result<Option<Reply>, NotBooked>
        requires shared { IfSome shared (λ c. is_local c ≡ false) }
        requires exists { IsSome (local_of self.old run.base.unit) }
        ensures entries { OnOk result (self.new ≡ booked run shared self.old) }
        ensures reply { IfOk result (λ r. r ≡ reply_booked run shared self.old) }
        ensures current { OnOk result (IsCurrent run self.old) }
        ensures refused { IfErr result (λ e. IsRefused e.cause run self.old) }
        ensures unchanged { OnErr result (self.new ≡ self.old) }
        ensures back { IfErr result (λ e. e.run ≡ run) }
        ensures call_back { IfErr result (λ e. e.shared ≡ shared) }
    {
        if !self.is_current(&run) {
            let cause = BookCause::Stale;
            return Err(NotBooked { run, shared, cause });
        }
        self.book_current(run, shared)
    }

    /// Appends the entries of a run, and then that of the unit's shared call, as `book` does, where
    /// the unit's own state is known to be the one from which the run began: it isn't compared.
    pub fn book_current(
        &mut self,
        run: LocalRun,
        shared: Option<Call>,
    ) -> Result<Option<Reply>, NotBooked>
        requires { IsCurrent run self.old }
        ensures entries { OnOk result (self.new ≡ booked run shared self.old) }
        ensures reply { IfOk result (λ r. r ≡ reply_booked run shared self.old) }
        ensures cause { IfErr result (λ e. e.cause ≡ BookCause.NoMemory) }
        ensures unchanged { OnErr result (self.new ≡ self.old) }
        ensures back { IfErr result (λ e. e.run ≡ run) }
        ensures call_back { IfErr result (λ e. e.shared ≡ shared) }
    {
        match shared {
            Some(call) if run.entries().is_empty() => self.book_alone(run, call),
            Some(call) => self.book_call(run, call),
            None => self.book_run(run),
        }
    }

    /// Appends the entry of a call, behind a run that has none.
    fn book_alone(&mut self, run: LocalRun, call: Call) -> Result<Option<Reply>, NotBooked>
        requires { run.entries ≡ [] }
        ensures entries { OnOk result (self.new
            ≡ appended run.base.unit call (with_run run self.old)) }
        ensures reply { IfOk result (λ r.
            r ≡ Some (answer_in (with_run run self.old) run.base.unit call).0) }
        ensures cause { IfErr result (λ e. e.cause ≡ BookCause.NoMemory) }
        ensures unchanged { OnErr result (self.new ≡ self.old) }
        ensures back { IfErr result (λ e. e.run ≡ run) }
        ensures call_back { IfErr result (λ e. e.shared ≡ Some call) }
    {
        match self.step(run.base().name(), call) {
            Ok(reply) => {
                run.let_go();
                Ok(Some(reply))
            }
            Err(refused) => Err(NotBooked {
                run,
                shared: Some(refused.call),
                cause: BookCause::NoMemory,
            }),
        }
    }

    /// Appends the entries of a run.
    fn book_run(&mut self, run: LocalRun) -> Result<Option<Reply>, NotBooked>
        requires { IsCurrent run self.old }
        ensures entries { OnOk result (self.new ≡ with_run run self.old) }
        ensures reply { IfOk result (λ r. r ≡ None) }
        ensures cause { IfErr result (λ e. e.cause ≡ BookCause.NoMemory) }
        ensures unchanged { OnErr result (self.new ≡ self.old) }
        ensures back { IfErr result (λ e. e.run ≡ run) }
        ensures call_back { IfErr result (λ e. e.shared ≡ None) }
    {
        let mut parts = run.into_parts();
        match self.append_run(&mut parts) {
            Ok(()) => {
                drop(parts);
                Ok(None)
            }
            Err(NoMemory) => Err(NotBooked {
                run: LocalRun::of_parts(parts),
                shared: None,
                cause: BookCause::NoMemory,
            }),
        }
    }

    /// Appends the entries of a run.
    fn append_run(&mut self, parts: &mut RunParts) -> Result<(), NoMemory>
        requires run { IsRun parts.old }
        requires current { IsCurrent (state_of parts.old) self.old }
        ensures entries { OnOk result (self.new ≡ with_run (state_of parts.old) self.old) }
        ensures unchanged { OnErr result (self.new ≡ self.old) }
        ensures parts { OnErr result (parts.new ≡ parts.old) }
    {
        self.journal.reserve(parts.entries.len())?;
        let Some(present) = parts.present.take() else {
            return Ok(());
        };
        drop(self.tables.board.swap(present));
        let _done = self.journal.append(&mut parts.entries);
        Ok(())
    }

    /// Appends the entries of a run that has some, and then that of a call of its unit.
    fn book_call(&mut self, run: LocalRun, call: Call) -> Result<Option<Reply>, NotBooked>
        requires current { IsCurrent run self.old }
        requires called { run.entries ≡ [] → ⊥ }
        ensures entries { OnOk result (self.new
            ≡ appended run.base.unit call (with_run run self.old)) }
        ensures reply { IfOk result (λ r.
            r ≡ Some (answer_in (with_run run self.old) run.base.unit call).0) }
        ensures cause { IfErr result (λ e. e.cause ≡ BookCause.NoMemory) }
        ensures unchanged { OnErr result (self.new ≡ self.old) }
        ensures back { IfErr result (λ e. e.run ≡ run) }
        ensures call_back { IfErr result (λ e. e.shared ≡ Some call) }
    {
        let mut parts = run.into_parts();
        match self.book_parts(&mut parts, call) {
            Ok(reply) => {
                drop(parts);
                Ok(Some(reply))
            }
            Err(call) => Err(NotBooked {
                run: LocalRun::of_parts(parts),
                shared: Some(call),
                cause: BookCause::NoMemory,
            }),
        }
    }

    /// Appends the entries of a run, and then that of a call of its unit. Where there is no memory,
    /// the parts are those of the same run.
    fn book_parts(&mut self, parts: &mut RunParts, call: Call) -> Result<Reply, Call>
        requires run { IsRun parts.old }
        requires copied { IsSome parts.old.present }
        requires current { IsCurrent (state_of parts.old) self.old }
        ensures entries { OnOk result (self.new
            ≡ appended parts.old.base.unit call (with_run (state_of parts.old) self.old)) }
        ensures reply { IfOk result (λ r. r
            ≡ (answer_in (with_run (state_of parts.old) self.old) parts.old.base.unit call).0) }
        ensures unchanged { OnErr result (self.new ≡ self.old) }
        ensures run { OnErr result (IsRun parts.new) }
        ensures state { OnErr result (state_of parts.new ≡ state_of parts.old) }
        ensures back { IfErr result (λ c. c ≡ call) }
    {
        let Ok(actor) = make_room(&mut self.journal, parts) else {
            return Err(call);
        };
        let present = parts.present.take().unwrap();
        let before = self.tables.board.swap(present);
        let Ok(taken) = take_in(&mut self.tables.board, &actor, &call) else {
            parts.present = Some(self.tables.board.swap(before));
            return Err(call);
        };
        drop(before);
        let _done = self.journal.append(&mut parts.entries);
        self.journal.push_reserved(Entry::Done {
            actor,
            call,
            reply: taken.reply,
            effect: taken.effect,
        });
        Ok(taken.kept)
    }

    /// Whether the unit's own state is the one from which the run began.
    fn is_current(&self, run: &LocalRun) -> bool
        ensures { MatchBool result (IsCurrent run.now self.now) (¬ IsCurrent run.now self.now) }
    {
        match self.local(run.base().name()) {
            Some(local) => local.same(run.base()),
            None => false,
        }
    }

    /// Appends an emitted entry: a commit whose author and call aren't told.
    pub fn emitted(&mut self, commit: Commit) -> Result<(), NotEmitted>
        ensures entry { OnOk result (self.new ≡ (self.old.0, Emitted commit ∷ self.old.1)) }
        ensures unchanged { OnErr result (self.new ≡ self.old) }
        ensures back { IfErr result (λ e. e.commit ≡ commit) }
    {
        let Ok(()) = self.journal.reserve(1) else {
            return Err(NotEmitted { commit });
        };
        let Ok(()) = self.tables.emitted(&commit) else {
            return Err(NotEmitted { commit });
        };
        self.journal.push_reserved(Entry::Emitted(commit));
        Ok(())
    }
}
