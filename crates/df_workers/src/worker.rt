//! A worker of a round.

ghost use Rattle.std.specs.Prelude.{◌<◌};
ghost use mathlib.Core.List.{IsPrefix};
ghost use Rattle.df_desk.specs.Pass.{IsFree};
ghost use Rattle.df_rules.specs.Follows.{brain_of};
ghost use Rattle.df_workers.specs.code.Came.{AreServedOf, Grew, UnlessOver};

use crate::came::Came;
use crate::gate::Gate;
use crate::serve::serve;
use df_brain::Brain;
use df_crew::Crew;
use df_desk::Pass;
use df_hub::Hub;
use df_unit::UnitName;
use std::sync::Wait;

/// A worker of a round: its pass, and what came of its steps.
#[derive(Drop)]
pub(crate) struct Worker<B: Brain> {
    pub(crate) pass: Pass<Crew<B>>,
    pub(crate) came: Came,
}

/// The units of a round, and among how many workers they are shared out. The one at place k goes to
/// worker k modulo that number.
#[derive(Clone, Copy)]
pub(crate) struct Share<'a> {
    pub(crate) units: &'a [UnitName],
    pub(crate) workers: usize,
}

/// Gives the units of one worker their steps, one unit after another.
fn serve_share<B: Brain, R: Wait, G: Gate>(
    rt: &R,
    hub: &Hub<B>,
    pass: &mut Pass<Crew<B>>,
    gate: &G,
    share: &Share,
    number: usize,
    max: u64,
) -> Came
    requires free { IsFree hub.now pass.old }
    requires workers { 0 < share.now.workers }
    ensures free { IsFree hub.now pass.new }
    ensures begins { IsPrefix pass.old.seen pass.new.seen }
    ensures grew { Grew max result pass.old.seen pass.new.seen }
    ensures served { UnlessOver result (AreServedOf (brain_of B.next B.instance) hub.now.origin
        share.now.workers number share.now.units.now pass.old.seen pass.new.seen) }
{
    let mut came = Came::Still;
    for (place, unit) in share.units.iter().enumerate() {
        if place % share.workers == number {
            came = came.then(serve(rt, hub, pass, gate, unit, max));
            if came.is_over() {
                return came;
            }
        }
    }
    came
}

impl<B: Brain> Worker<B> {
    ghost use Rattle.df_workers.specs.code.Came.{HasWorked};

    /// Does the round's work of the worker with this number.
    pub(crate) fn work<R: Wait, G: Gate>(
        &mut self,
        rt: &R,
        hub: &Hub<B>,
        gate: &G,
        share: &Share,
        number: usize,
        max: u64,
    )
        requires free { IsFree hub.now self.old.pass }
        requires workers { 0 < share.now.workers }
        ensures { HasWorked (brain_of B.next B.instance) hub.now max share.now.workers
            share.now.units.now number self.old self.new }
    {
        self.came = serve_share(rt, hub, &mut self.pass, gate, share, number, max);
    }
}
