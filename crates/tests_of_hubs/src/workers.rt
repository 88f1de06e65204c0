//! Workers at a hub of some units.

ghost use Rattle.std.specs.Prelude.{IfOk};
ghost use Rattle.df_desk.specs.Pass.{IsFree};

use crate::hubs::{finished, hub_by, public_root};
use crate::player::Player;
use crate::teller::Teller;
use df_crew::Crew;
use df_desk::Pass;
use df_hub::Hub;
use df_memory::NoMemory;
use df_start::Start;
use df_unit::UnitName;
use df_workers::{Gate, OpenGate, run};
use std::alloc::Global;
use std::sync::Wait;
use std::sync::atomic::{AtomicU64, Ordering};
use std::test::Fail;

/// How many units there are.
const UNITS: u32 = 7;

/// A hub of so many units that tell, with its first pass.
fn hub_of(alloc: Global, count: u32) -> Result<(Hub<Player>, Pass<Crew<Player>>), NoMemory>
    ensures { IfOk result (λ made. IsFree made.0 made.1) }
{
    let mut roots = Vec::new(alloc);
    let mut brains = Vec::new(alloc);
    for number in 0..count {
        roots.push(public_root(alloc))?;
        brains.push(Player::Teller(Teller::new(alloc, i64::from(number))?))?;
    }
    hub_by(alloc, Start::new(roots), brains)
}

#[test]
fn workers_give_each_unit_its_turns(rt: HostRuntime) -> Result<(), Fail> {
    for workers in [1, 2, 4, 8, 16] {
        let (hub, mut pass) = hub_of(rt.alloc(), UNITS)?;
        run(&rt, rt.alloc(), &hub, &mut pass, workers, 1_000, &OpenGate)?;
        assert_eq!(rt; finished(&rt, &hub, pass)?, (3 * UNITS as usize, true));
    }
    Ok(())
}

#[test]
fn workers_stop_at_the_limit(rt: HostRuntime) -> Result<(), Fail> {
    let (hub, mut pass) = hub_of(rt.alloc(), UNITS)?;
    run(&rt, rt.alloc(), &hub, &mut pass, 2, 1, &OpenGate)?;
    let (entries, is_quiet) = finished(&rt, &hub, pass)?;
    assert!(rt; entries >= 3 && entries <= 6, "{entries}");
    assert!(rt; !is_quiet);
    Ok(())
}

/// How often a unit looks for the other one.
const MOST_LOOKS: u32 = 100_000_000;

/// A gate at which two units meet, each before its first step.
#[derive(Drop)]
struct Meeting {
    came: [AtomicU64; 2],
    gave_up: AtomicU64,
}

impl Meeting {
    fn new() -> Meeting {
        Meeting {
            came: [AtomicU64::new(0), AtomicU64::new(0)],
            gave_up: AtomicU64::new(0),
        }
    }

    /// Waits for the other one of the two, but not for ever.
    fn meet(&self, here: &AtomicU64, there: &AtomicU64) {
        here.store(1, Ordering::SeqCst);
        for _ in 0..MOST_LOOKS {
            if there.load(Ordering::SeqCst) == 1 {
                return;
            }
        }
        self.gave_up.store(1, Ordering::SeqCst);
    }

    /// Whether both came, and neither gave up.
    fn was_met(&self) -> bool {
        let [zero, one] = &self.came;
        zero.load(Ordering::SeqCst) == 1
            && one.load(Ordering::SeqCst) == 1
            && self.gave_up.load(Ordering::SeqCst) == 0
    }
}

impl Gate for Meeting {
    fn before<R: Wait>(&self, _rt: &R, unit: &UnitName, made: u64) {
        let UnitName::Root(path) = unit else {
            return;
        };
        let [zero, one] = &self.came;
        match (path.as_slice(), made) {
            ([0], 0) => self.meet(zero, one),
            ([1], 0) => self.meet(one, zero),
            _ => {}
        }
    }

    fn after<R: Wait>(&self, _rt: &R, _unit: &UnitName, _made: u64) {}
}

#[test]
fn steps_of_two_workers_overlap(rt: HostRuntime) -> Result<(), Fail> {
    let (hub, mut pass) = hub_of(rt.alloc(), 2)?;
    let gate = Meeting::new();
    run(&rt, rt.alloc(), &hub, &mut pass, 2, 1_000, &gate)?;
    assert!(rt; gate.was_met());
    assert_eq!(rt; finished(&rt, &hub, pass)?, (6, true));
    Ok(())
}
