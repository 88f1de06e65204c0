//! The steps of one unit in one round.

ghost use mathlib.Core.List.{IsPrefix};
ghost use Rattle.df_desk.specs.Pass.{IsFree};
ghost use Rattle.df_rules.specs.Follows.{brain_of};
ghost use Rattle.df_workers.specs.Serving.{IsServed};
ghost use Rattle.df_workers.specs.code.Came.{Grew, UnlessOver};

use crate::came::Came;
use crate::gate::Gate;
use crate::step::{Next, begin, step};
use df_brain::Brain;
use df_crew::Crew;
use df_desk::Pass;
use df_hub::Hub;
use df_unit::UnitName;
use std::sync::Wait;

/// How many steps a unit has in a round at most.
const MOST_STEPS: u64 = 64;

/// Gives a unit its steps of a round: until one appends nothing, or the journal is full.
pub(crate) fn serve<B: Brain, R: Wait, G: Gate>(
    rt: &R,
    hub: &Hub<B>,
    pass: &mut Pass<Crew<B>>,
    gate: &G,
    unit: &UnitName,
    max: u64,
) -> Came
    requires { IsFree hub.now pass.old }
    ensures free { IsFree hub.now pass.new }
    ensures begins { IsPrefix pass.old.seen pass.new.seen }
    ensures grew { Grew max result pass.old.seen pass.new.seen }
    ensures served { UnlessOver result (IsServed (brain_of B.next B.instance) hub.now.origin
        unit.now pass.old.seen pass.new.seen) }
{
    let (mut turn, mut came) = match begin(rt, hub, pass, unit) {
        Next::Goes { turn, came } => (turn, came),
        Next::Ends(came) => return came,
    };
    for made in 0..MOST_STEPS {
        gate.before(rt, unit, made);
        let next = step(rt, hub, pass, unit, turn, max);
        gate.after(rt, unit, made);
        match next {
            Next::Goes {
                turn: next,
                came: of,
            } => {
                turn = next;
                came = came.then(of);
            }
            Next::Ends(of) => return came.then(of),
        }
    }
    turn.let_go();
    came
}
