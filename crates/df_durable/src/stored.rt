//! A journal on a disk.
ghost use Rattle.std.specs.Prelude.{◌≡◌, ◌≢◌, ◌≤◌, ◌↔◌, ℕ, [], IfErr, IfOk, IfSome, MatchResult, None, OnErr, OnOk, false, true};
ghost use Rattle.df_disk.specs.Disk.{IsSettled, LeavesOnly, Recedes};
ghost use Rattle.df_disk.specs.Records.{IsEmpty};
ghost use Rattle.df_durable.specs.Keeping.{IsBeforeOrAfter, IsEmptyOrStarted, KeepsBeforeOrAfter};
ghost use Rattle.df_durable.specs.StoredState.{Holds};
ghost use Rattle.df_durable.specs.Storing.{IsFoundOn, IsRefusal, not_created, not_stepped};
ghost use Rattle.df_io.specs.Faults.{Rose};
ghost use Rattle.df_machine.specs.Journal.{IsLegal, answer_in, appended};

use crate::{
    KeptCore, NotKept, NotOpened, OpenCause, StepCause, StepRefused, create_on, open_on, step_on,
};
use df_disk::Disk;
use df_machine::Core;
use df_start::Start;
use df_unit::{Call, Reply, UnitName};
use std::alloc::Global;
use std::marker::Model;

/// A journal that is kept on a disk, with the machine that it leads to. A contract sees the disk,
/// the machine's start and journal, and whether a step has failed.
#[derive(Drop)]
pub struct Stored<D: Disk + Drop> {
    alloc: Global,
    disk: D,
    kept: KeptCore,
    closed: bool,
}

impl<D: Disk + Drop> Model for Stored<D> {
    ghost use Rattle.df_durable.specs.StoredState.{IsStored, StoredState, stored_code};

    ghost Value = { StoredState D };

    ghost coded = { stored_code D.code };

    ghost view = { λ s. record { disk = s.disk; core = s.kept.core; closed = s.closed } };

    ghost invariant = { λ s. IsStored D.bytes D.may_leave s.disk s.kept s.closed };
}

/// What was found on a disk.
#[derive(Drop)]
pub enum Opened<D: Disk + Drop> {
    Empty(D),
    Kept(Stored<D>),
}

fn not_created(why: NotKept) -> OpenCause
    ensures { result ≡ not_created why }
{
    match why {
        NotKept::Fault => OpenCause::DiskFault,
        NotKept::NoMemory => OpenCause::NoMemory,
    }
}

fn not_stepped(why: NotKept) -> StepCause
    ensures { result ≡ not_stepped why }
{
    match why {
        NotKept::Fault => StepCause::DiskFault,
        NotKept::NoMemory => StepCause::NoMemory,
    }
}

impl<D: Disk + Drop> Stored<D> {
    /// Opens what a crash may have left: the disk is synced, its image is read once, and each kept
    /// call is made again.
    pub fn open(alloc: Global, mut disk: D) -> Result<Opened<D>, NotOpened<D>>
        ensures found { IfOk result (IsFoundOn D.bytes D.may_leave D.moment D.left_since disk) }
        ensures refused { IfErr result (λ e.
            IsRefusal (D.faults disk) (D.faults e.disk) (D.bytes disk) e.cause) }
        ensures same { IfErr result (λ e. D.bytes e.disk ≡ D.bytes disk) }
        ensures time { IfErr result (λ e. Recedes (D.moment disk) (D.moment e.disk)
            (D.left_since disk) (D.left_since e.disk)) }
    {
        let found = match open_on(alloc, &mut disk) {
            Ok(found) => found,
            Err(cause) => return Err(NotOpened { disk, cause }),
        };
        let closed = false;
        match found {
            None => Ok(Opened::Empty(disk)),
            Some(kept) => Ok(Opened::Kept(Stored {
                alloc,
                disk,
                kept,
                closed,
            })),
        }
    }

    /// Creates a journal without an entry on an empty disk.
    pub fn create(alloc: Global, mut disk: D, start: Start) -> Result<Stored<D>, NotOpened<D>>
        requires empty { IfSome (D.bytes disk) IsEmpty }
        requires settled { IsSettled (D.bytes disk) (D.may_leave disk) }
        ensures core { IfOk result (λ s. (s.core ≡ (start, [])) × (s.closed ≡ false)) }
        ensures tells { IfOk result (λ s. D.bytes s.disk ≡ None → D.bytes disk ≡ None) }
        ensures any_moment { IfSome (D.bytes disk) (λ _. MatchResult result
            (λ s. LeavesOnly D.moment D.left_since disk s.disk (IsEmptyOrStarted start))
            (λ e. LeavesOnly D.moment D.left_since disk e.disk (IsEmptyOrStarted start))) }
        ensures unwritten { IfErr result (λ e. e.cause ≡ OpenCause.NoMemory → e.disk ≡ disk) }
        ensures fault { IfErr result (λ e. e.cause ≡ OpenCause.DiskFault →
            Rose (D.faults disk) (D.faults e.disk)) }
        ensures undamaged { IfErr result (λ e. (at : ℕ) → e.cause ≢ OpenCause.Damaged at) }
    {
        match create_on(alloc, &mut disk, start) {
            Ok(kept) => Ok(Stored {
                alloc,
                disk,
                kept,
                closed: false,
            }),
            Err(why) => {
                let cause = not_created(why);
                Err(NotOpened { disk, cause })
            }
        }
    }

    /// What the disk holds, where it tells its bytes and no step has failed: a crash leaves just
    /// the start and the journal of the machine.
    pub fn holds(&self)
        ensures disk { self.now.closed ≡ false → IfSome (D.bytes self.now.disk) (λ _.
            Holds D.bytes D.may_leave self.now.disk self.now.core) }
        ensures legal { IsLegal self.now.core }
    {
        let _journal = self.kept.core.journal();
    }

    /// Makes a call for a unit and keeps its entry. Once it is answered, each crash leaves the
    /// journal with the entry. A call that was not made is given back; but for Closed, the store is
    /// closed then, and has to be opened again.
    pub fn step(&mut self, actor: &UnitName, call: Call) -> Result<Reply, StepRefused>
        ensures reply { IfOk result (λ r. r ≡ (answer_in self.old.core actor.now call).0) }
        ensures entry { OnOk result (self.new.core ≡ appended actor.now call self.old.core) }
        ensures any_moment { self.old.closed ≡ false → IfSome (D.bytes self.old.disk) (λ _.
            LeavesOnly D.moment D.left_since self.old.disk self.new.disk
            (KeepsBeforeOrAfter self.old.core actor.now call)) }
        ensures tells { OnOk result
            (D.bytes self.new.disk ≡ None → D.bytes self.old.disk ≡ None) }
        ensures open { OnOk result (self.new.closed ≡ false) }
        ensures closes { OnErr result (self.new.closed ≡ true) }
        ensures stops { OnErr result
            (IsBeforeOrAfter actor.now call self.old.core self.new.core) }
        ensures closed { IfErr result (λ e. e.cause ≡ StepCause.Closed ↔ self.old.closed ≡ true) }
        ensures needs_open { OnOk result (self.old.closed ≡ false) }
        ensures unchanged { self.old.closed ≡ true → self.new ≡ self.old }
        ensures fault { IfErr result (λ e. e.cause ≡ StepCause.DiskFault →
            Rose (D.faults self.old.disk) (D.faults self.new.disk)) }
        ensures never_falls { D.faults self.old.disk ≤ D.faults self.new.disk }
        ensures back { IfErr result (λ e. e.call ≡ call) }
    {
        if self.closed {
            let cause = StepCause::Closed;
            return Err(StepRefused { call, cause });
        }
        self.closed = true;
        match step_on(self.alloc, &mut self.disk, &mut self.kept, actor, &call) {
            Ok(reply) => {
                drop(call);
                self.closed = false;
                Ok(reply)
            }
            Err(why) => {
                let cause = not_stepped(why);
                Err(StepRefused { call, cause })
            }
        }
    }

    /// The machine with the kept start and journal.
    pub fn core(&self) -> &Core
        ensures { result.now ≡ self.now.core }
    {
        &self.kept.core
    }

    /// The start of the kept image.
    pub fn start(&self) -> &Start
        ensures { result.now ≡ self.now.core.0 }
    {
        self.kept.core.start_of()
    }

    /// The disk, as it is.
    pub fn into_disk(self) -> D
        ensures { result ≡ self.disk }
    {
        self.disk
    }
}
