//! One step of a worker.

ghost use Rattle.std.specs.Prelude.{◌≡◌};
ghost use mathlib.Core.List.{IsPrefix};
ghost use Rattle.df_crew.specs.Locally.{IsBegun};
ghost use Rattle.df_crew.specs.Seen.{core_at};
ghost use Rattle.df_desk.specs.Pass.{IsFree};
ghost use Rattle.df_rules.specs.Follows.{brain_of};
ghost use Rattle.df_workers.specs.code.Came.{IsAdvanced, IsFirst, IsNext, ends_of, next_of, next_turn};
ghost use Rattle.df_workers.specs.declared.came.Came.TheVariants.{NoMemory as OutOfMemory};
ghost use Rattle.df_workers.specs.declared.step.Next.TheVariants.{Ends};

use crate::came::Came;
use df_brain::Brain;
use df_crew::{BeginRefused, BookCause, Crew, NotTurned};
use df_desk::Pass;
use df_hub::{Hub, Stepped};
use df_memory::NoMemory;
use df_turn::Turn;
use df_unit::UnitName;
use std::sync::Wait;

/// What a worker does for a unit next.
#[derive(Drop)]
pub(crate) enum Next<B: Brain> {
    /// It goes on with this turn.
    Goes { turn: Turn<B>, came: Came },
    /// It leaves the unit for this round.
    Ends(Came),
}

/// A turn with which a worker goes on, unless there is no memory. A unit that doesn't exist has
/// none.
pub(crate) fn begin<B: Brain, R: Wait>(
    rt: &R,
    hub: &Hub<B>,
    pass: &mut Pass<Crew<B>>,
    unit: &UnitName,
) -> Next<B>
    requires { IsFree hub.now pass.old }
    ensures free { IsFree hub.now pass.new }
    ensures begins { IsPrefix pass.old.seen pass.new.seen }
    ensures first { IsFirst (brain_of B.next B.instance) hub.now.origin unit.now pass.new.seen
        result }
{
    match hub.begin(rt, pass, unit) {
        Ok(turn) => Next::Goes {
            turn,
            came: Came::Still,
        },
        Err(BeginRefused::NoSuchUnit) => Next::Ends(Came::Still),
        Err(BeginRefused::NoMemory) => Next::Ends(Came::NoMemory),
    }
}

/// What ends a unit's steps in this round, by what a booking appended and how many entries there
/// then are: the journal is full, or nothing was appended.
fn ends(appended: u64, entries: u64, max: u64) -> Option<Came>
    ensures { result ≡ ends_of max appended entries }
{
    if entries >= max {
        Some(Came::Full)
    } else if appended == 0 {
        Some(Came::Still)
    } else {
        None
    }
}

/// Lets go of a turn, if there is one.
fn let_go<B: Brain>(turn: Result<Turn<B>, NoMemory>) {
    if let Ok(turn) = turn {
        turn.let_go();
    }
}

/// Goes on with the unit's next turn, unless there was no memory for it.
fn goes<B: Brain>(turn: Result<Turn<B>, NoMemory>) -> Next<B>
    ensures { result ≡ next_turn turn }
{
    match turn {
        Ok(turn) => Next::Goes {
            turn,
            came: Came::Moved,
        },
        Err(_) => Next::Ends(Came::NoMemory),
    }
}

/// What follows a step that was booked.
fn booked<B: Brain>(stepped: Stepped<B>, max: u64) -> Next<B>
    ensures { result ≡ next_of max stepped }
{
    let Stepped {
        turn,
        appended,
        entries,
    } = stepped;
    match ends(appended, entries, max) {
        Some(came) => {
            let_go(turn);
            Next::Ends(came)
        }
        None => goes(turn),
    }
}

/// What follows a step that was refused: a stale turn is begun again.
fn refused<B: Brain, R: Wait>(
    rt: &R,
    hub: &Hub<B>,
    pass: &mut Pass<Crew<B>>,
    unit: &UnitName,
    not_turned: NotTurned<B>,
) -> Next<B>
    requires { IsFree hub.now pass.old }
    ensures free { IsFree hub.now pass.new }
    ensures begins { IsPrefix pass.old.seen pass.new.seen }
    ensures stale { not_turned.cause ≡ BookCause.Stale →
        IsFirst (brain_of B.next B.instance) hub.now.origin unit.now pass.new.seen result }
    ensures short { not_turned.cause ≡ BookCause.NoMemory → result ≡ Ends OutOfMemory }
{
    let NotTurned { turn, cause } = not_turned;
    turn.let_go();
    match cause {
        BookCause::Stale => begin(rt, hub, pass, unit),
        BookCause::NoMemory => Next::Ends(Came::NoMemory),
    }
}

/// Books a turn that was advanced.
fn book<B: Brain, R: Wait>(
    rt: &R,
    hub: &Hub<B>,
    pass: &mut Pass<Crew<B>>,
    unit: &UnitName,
    turn: Turn<B>,
    max: u64,
) -> Next<B>
    requires free { IsFree hub.now pass.old }
    requires turn { IsAdvanced (brain_of B.next B.instance) hub.now.origin unit.now pass.old.seen
        turn }
    ensures free { IsFree hub.now pass.new }
    ensures begins { IsPrefix pass.old.seen pass.new.seen }
    ensures next { IsNext (brain_of B.next B.instance) hub.now.origin max unit.now
        pass.old.seen pass.new.seen result }
{
    match hub.step_seen(rt, pass, turn) {
        Ok(stepped) => booked(stepped, max),
        Err(not_turned) => refused(rt, hub, pass, unit, not_turned),
    }
}

/// Advances a turn, apart from all others, and books it.
pub(crate) fn step<B: Brain, R: Wait>(
    rt: &R,
    hub: &Hub<B>,
    pass: &mut Pass<Crew<B>>,
    unit: &UnitName,
    mut turn: Turn<B>,
    max: u64,
) -> Next<B>
    requires free { IsFree hub.now pass.old }
    requires turn { IsBegun (brain_of B.next B.instance) hub.now.origin.brains
        (core_at hub.now.origin pass.old.seen) unit.now turn }
    ensures free { IsFree hub.now pass.new }
    ensures begins { IsPrefix pass.old.seen pass.new.seen }
    ensures next { IsNext (brain_of B.next B.instance) hub.now.origin max unit.now
        pass.old.seen pass.new.seen result }
{
    match turn.advance() {
        Ok(_) => book(rt, hub, pass, unit, turn, max),
        Err(_) => {
            turn.let_go();
            Next::Ends(Came::NoMemory)
        }
    }
}
