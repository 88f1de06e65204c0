//! Turns on hubs: booked once, stale where another came first, and booked on an equal hub.

ghost use Rattle.std.specs.Prelude.{◌≡◌, IfOk, length};
ghost use Rattle.df_desk.specs.Pass.{IsFree};

use crate::player::Player;
use crate::teller::Teller;
use df_crew::{BeginRefused, BookCause, Crew, NotTurned};
use df_desk::Pass;
use df_filter::{Clause, Filter, Test};
use df_frozen::Name;
use df_hub::{Hub, Stepped};
use df_label::{Label, Privileges, TagSet};
use df_memory::NoMemory;
use df_start::{RootStart, Start};
use df_turn::{Ready, Turn};
use df_unit::{Path, UnitName};
use std::alloc::Global;
use std::sync::Wait;
use std::test::Fail;

/// What came of a step.
#[derive(Clone, Copy, Debug, PartialEq, Eq)]
enum Came {
    Booked { appended: u64, entries: u64 },
    Stale,
    NoMemory,
}

fn root(number: u32) -> UnitName {
    UnitName::Root(Path::root(number))
}

/// A root at the public label and without privileges.
pub(crate) fn public_root(alloc: Global) -> RootStart {
    RootStart {
        label: Label {
            s: TagSet::new(alloc),
            i: TagSet::new(alloc),
        },
        privileges: Privileges::new(alloc),
    }
}

/// A hub of units with these brains, with its first pass.
pub(crate) fn hub_by(
    alloc: Global,
    start: Start,
    brains: Vec<Player>,
) -> Result<(Hub<Player>, Pass<Crew<Player>>), NoMemory>
    requires { length brains.items ≡ length start }
    ensures { IfOk result (λ made. IsFree made.0 made.1) }
{
    match Hub::new(alloc, Crew::start(alloc, start, brains)?) {
        Ok(made) => Ok(made),
        Err(_) => Err(NoMemory),
    }
}

/// A hub of one unit that tells, with its first pass.
fn teller_alone(alloc: Global) -> Result<(Hub<Player>, Pass<Crew<Player>>), NoMemory>
    ensures { IfOk result (λ made. IsFree made.0 made.1) }
{
    let brains = vec![in alloc; Player::Teller(Teller::new(alloc, 7)?)]?;
    let start = Start::new(vec![in alloc; public_root(alloc)]?);
    hub_by(alloc, start, brains)
}

/// The events that have a bed.
fn with_a_bed(alloc: Global) -> Result<Filter, NoMemory> {
    let Ok(name) = Name::new("bed") else {
        return Err(NoMemory);
    };
    let clause = Clause {
        name,
        test: Test::Present,
    };
    match Filter::new(vec![in alloc; clause]?) {
        Ok(filter) => Ok(filter),
        Err(_) => Err(NoMemory),
    }
}

/// A hub of a unit with a subscription for instances and one that tells, with its first pass.
fn host_and_teller(alloc: Global) -> Result<(Hub<Player>, Pass<Crew<Player>>), NoMemory>
    ensures { IfOk result (λ made. IsFree made.0 made.1) }
{
    let host = Player::Host(with_a_bed(alloc)?);
    let brains = vec![in alloc; host, Player::Teller(Teller::new(alloc, 7)?)]?;
    let start = Start::new(vec![in alloc; public_root(alloc), public_root(alloc)]?);
    hub_by(alloc, start, brains)
}

/// A turn that was advanced, and how it ended.
#[derive(Drop)]
struct ReadyTurn {
    turn: Turn<Player>,
    ready: Ready,
}

/// A turn of a unit that exists, advanced.
fn advanced<R: Wait>(
    rt: &R,
    hub: &Hub<Player>,
    pass: &mut Pass<Crew<Player>>,
    unit: &UnitName,
) -> Result<ReadyTurn, NoMemory>
    requires { IsFree hub.now pass.old }
    ensures { IsFree hub.now pass.new }
{
    let Ok(mut turn) = hub.begin(rt, pass, unit) else {
        return Err(NoMemory);
    };
    match turn.advance() {
        Ok(ready) => Ok(ReadyTurn { turn, ready }),
        Err(NoMemory) => {
            turn.let_go();
            Err(NoMemory)
        }
    }
}

/// What came of a turn that was booked.
fn booked(stepped: Stepped<Player>) -> Came {
    let came = Came::Booked {
        appended: stepped.appended,
        entries: stepped.entries,
    };
    drop(stepped);
    came
}

/// What came of a turn that wasn't booked.
fn refused(refused: NotTurned<Player>) -> Came {
    let came = match refused.cause {
        BookCause::Stale => Came::Stale,
        BookCause::NoMemory => Came::NoMemory,
    };
    refused.turn.let_go();
    came
}

/// Steps, and tells what came of it.
fn step<R: Wait>(
    rt: &R,
    hub: &Hub<Player>,
    pass: &mut Pass<Crew<Player>>,
    turn: Turn<Player>,
) -> Came
    requires { IsFree hub.now pass.old }
    ensures { IsFree hub.now pass.new }
{
    match hub.step(rt, pass, turn) {
        Ok(stepped) => booked(stepped),
        Err(not_turned) => refused(not_turned),
    }
}

/// A whole turn of a unit that exists.
fn turned<R: Wait>(
    rt: &R,
    hub: &Hub<Player>,
    pass: &mut Pass<Crew<Player>>,
    unit: &UnitName,
) -> Result<(Ready, Came), NoMemory>
    requires { IsFree hub.now pass.old }
    ensures { IsFree hub.now pass.new }
{
    let ReadyTurn { turn, ready } = advanced(rt, hub, pass, unit)?;
    Ok((ready, step(rt, hub, pass, turn)))
}

/// Two passes begin a turn each of one unit, and step one after the other.
fn turned_twice<R: Wait>(
    rt: &R,
    hub: &Hub<Player>,
    p: &mut Pass<Crew<Player>>,
    q: &mut Pass<Crew<Player>>,
    unit: &UnitName,
) -> Result<[(Ready, Came); 2], NoMemory>
    requires p { IsFree hub.now p.old }
    requires q { IsFree hub.now q.old }
    ensures p { IsFree hub.now p.new }
    ensures q { IsFree hub.now q.new }
{
    let first = advanced(rt, hub, p, unit)?;
    match advanced(rt, hub, q, unit) {
        Ok(second) => {
            let came = step(rt, hub, p, first.turn);
            let then = step(rt, hub, q, second.turn);
            Ok([(first.ready, came), (second.ready, then)])
        }
        Err(NoMemory) => {
            first.turn.let_go();
            Err(NoMemory)
        }
    }
}

/// Whether a hub says that there is no such unit.
fn is_absent<R: Wait>(
    rt: &R,
    hub: &Hub<Player>,
    pass: &mut Pass<Crew<Player>>,
    unit: &UnitName,
) -> bool
    requires { IsFree hub.now pass.old }
    ensures { IsFree hub.now pass.new }
{
    match hub.begin(rt, pass, unit) {
        Ok(turn) => {
            turn.let_go();
            false
        }
        Err(cause) => cause == BeginRefused::NoSuchUnit,
    }
}

/// How many entries a finished hub has, and whether it is quiet.
pub(crate) fn finished<R: Wait>(
    rt: &R,
    hub: &Hub<Player>,
    pass: Pass<Crew<Player>>,
) -> Result<(usize, bool), NoMemory>
    requires { IsFree hub.now pass }
{
    let crew = hub.finish(rt, pass);
    let count = crew.core().journal().len();
    let quiet = crew.is_quiet();
    drop(crew);
    Ok((count, quiet?))
}

/// What two passes see of a hub of one unit.
#[derive(Clone, Copy, Debug, PartialEq, Eq)]
struct Seen {
    /// Both begin a turn, and step one after the other.
    twice: [(Ready, Came); 2],
    /// The second one then begins anew, and steps once more.
    anew: (Ready, Came),
    is_absent: bool,
    /// How many entries there are in the end, and whether the hub is quiet.
    finished: (usize, bool),
}

fn seen_of<R: Wait>(rt: &R, hub: &Hub<Player>, mut p: Pass<Crew<Player>>) -> Result<Seen, NoMemory>
    requires { IsFree hub.now p }
{
    let mut q = hub.split(&mut p)?;
    let unit = root(0);
    let twice = turned_twice(rt, hub, &mut p, &mut q, &unit)?;
    let anew = turned(rt, hub, &mut q, &unit)?;
    let is_absent = is_absent(rt, hub, &mut q, &root(7));
    hub.join(&mut p, q);
    Ok(Seen {
        twice,
        anew,
        is_absent,
        finished: finished(rt, hub, p)?,
    })
}

#[test]
fn a_turn_is_booked_once(rt: HostRuntime) -> Result<(), Fail> {
    let (hub, pass) = teller_alone(rt.alloc())?;
    let seen = seen_of(&rt, &hub, pass);
    drop(hub);
    let booked = Came::Booked {
        appended: 3,
        entries: 3,
    };
    let rested = Came::Booked {
        appended: 0,
        entries: 3,
    };
    assert_eq!(rt;
        seen?,
        Seen {
            twice: [(Ready::Shared, booked), (Ready::Shared, Came::Stale)],
            anew: (Ready::Waiting, rested),
            is_absent: true,
            finished: (3, true),
        }
    );
    Ok(())
}

/// The instance of unit 0, if there is one.
fn instance_of<R: Wait>(
    rt: &R,
    hub: &Hub<Player>,
    pass: &mut Pass<Crew<Player>>,
) -> Result<Option<UnitName>, NoMemory>
    requires { IsFree hub.now pass.old }
    ensures { IsFree hub.now pass.new }
{
    let units = hub.units(rt, pass)?;
    for unit in &units {
        if matches!(unit, UnitName::Managed { .. }) {
            return Ok(Some(unit.copy()?));
        }
    }
    Ok(None)
}

/// A turn of this unit that is begun on the one hub and stepped on the other.
fn step_over<R: Wait>(
    rt: &R,
    one: &Hub<Player>,
    p: &mut Pass<Crew<Player>>,
    two: &Hub<Player>,
    q: &mut Pass<Crew<Player>>,
    unit: &UnitName,
) -> Result<Came, NoMemory>
    requires p { IsFree one.now p.old }
    requires q { IsFree two.now q.old }
    ensures p { IsFree one.now p.new }
    ensures q { IsFree two.now q.new }
{
    let ReadyTurn { turn, .. } = advanced(rt, one, p, unit)?;
    Ok(step(rt, two, q, turn))
}

/// The same of the instance of unit 0 on the one hub, if there is one.
fn step_instance_over<R: Wait>(
    rt: &R,
    one: &Hub<Player>,
    p: &mut Pass<Crew<Player>>,
    two: &Hub<Player>,
    q: &mut Pass<Crew<Player>>,
) -> Result<Option<Came>, NoMemory>
    requires p { IsFree one.now p.old }
    requires q { IsFree two.now q.old }
    ensures p { IsFree one.now p.new }
    ensures q { IsFree two.now q.new }
{
    match instance_of(rt, one, p)? {
        Some(instance) => Ok(Some(step_over(rt, one, p, two, q, &instance)?)),
        None => Ok(None),
    }
}

/// What comes of turns on two hubs of an equal crew.
#[derive(Clone, Copy, Debug, PartialEq, Eq)]
struct SeenOver {
    /// A turn of unit 0 is begun on the first hub and stepped on the second.
    over: Came,
    /// Units 0 and 1 take a turn each on the first hub.
    turns: [(Ready, Came); 2],
    /// A turn of the instance that is then there is begun on the first hub and stepped on the
    /// second, which has none.
    instance: Option<Came>,
}

fn seen_over<R: Wait>(
    rt: &R,
    one: &Hub<Player>,
    p: &mut Pass<Crew<Player>>,
    two: &Hub<Player>,
    q: &mut Pass<Crew<Player>>,
) -> Result<SeenOver, NoMemory>
    requires p { IsFree one.now p.old }
    requires q { IsFree two.now q.old }
    ensures p { IsFree one.now p.new }
    ensures q { IsFree two.now q.new }
{
    let over = step_over(rt, one, p, two, q, &root(0))?;
    let host = turned(rt, one, p, &root(0))?;
    let teller = turned(rt, one, p, &root(1))?;
    let instance = step_instance_over(rt, one, p, two, q)?;
    Ok(SeenOver {
        over,
        turns: [host, teller],
        instance,
    })
}

/// What comes of turns on this hub and on another of an equal crew.
fn seen_with_another<R: Wait>(
    rt: &R,
    alloc: Global,
    one: &Hub<Player>,
    p: &mut Pass<Crew<Player>>,
) -> Result<SeenOver, NoMemory>
    requires { IsFree one.now p.old }
{
    let (two, mut q) = host_and_teller(alloc)?;
    let seen = seen_over(rt, one, p, &two, &mut q);
    drop(two);
    seen
}

#[test]
fn a_turn_is_booked_on_an_equal_hub(rt: HostRuntime) -> Result<(), Fail> {
    let (hub, mut pass) = host_and_teller(rt.alloc())?;
    let seen = seen_with_another(&rt, rt.alloc(), &hub, &mut pass);
    drop(hub);
    let subscribed = Came::Booked {
        appended: 1,
        entries: 1,
    };
    let told = Came::Booked {
        appended: 3,
        entries: 4,
    };
    assert_eq!(rt;
        seen?,
        SeenOver {
            over: subscribed,
            turns: [(Ready::Shared, subscribed), (Ready::Shared, told)],
            instance: Some(Came::Stale),
        }
    );
    Ok(())
}
