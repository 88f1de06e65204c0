//! The rounds of workers.

ghost use Rattle.std.specs.Prelude.{◌≡◌, ◌⊎◌, ◌≤◌, ◌<◌, All, IfOk, OnOk, true, false, vec_len};
ghost use mathlib.Core.List.{IsPrefix};
ghost use Rattle.df_desk.specs.Pass.{IsFree};
ghost use Rattle.df_rules.specs.Follows.{brain_of};
ghost use Rattle.df_workers.specs.Serving.{AreServed, HaveRun};
ghost use Rattle.df_workers.specs.code.Came.{Grew, HasWorked, UnlessOver};
ghost use Rattle.df_workers.specs.code.Gathered.{CameOf, Each, HaveWorked, IsHired, IsRound};
ghost use Rattle.df_workers.specs.declared.came.Came.TheVariants.{Full, Moved, Still};

use crate::came::Came;
use crate::gate::Gate;
use crate::worker::{Share, Worker};
use df_brain::Brain;
use df_crew::Crew;
use df_desk::Pass;
use df_hub::Hub;
use df_memory::NoMemory;
use std::alloc::Global;
use std::sync::Wait;
use std::thread::{Threads, for_each_mut};

/// Workers, each with a pass that has seen the same.
fn hire<B: Brain>(
    alloc: Global,
    hub: &Hub<B>,
    pass: &mut Pass<Crew<B>>,
    workers: usize,
) -> Result<Vec<Worker<B>>, NoMemory>
    requires { IsFree hub.now pass.old }
    ensures free { IsFree hub.now pass.new }
    ensures seen { pass.new.seen ≡ pass.old.seen }
    ensures count { IfOk result (λ all. vec_len all ≡ workers) }
    ensures hired { IfOk result (λ all. All (IsHired hub.now pass.old.seen) all.items) }
{
    let mut all = Vec::with_capacity(alloc, workers)?;
    for _hired in 0..workers {
        let pass = hub.split(pass)?;
        all.push(Worker {
            pass,
            came: Came::Still,
        })?;
    }
    Ok(all)
}

/// Joins the workers' passes into this one, and tells what came of their steps.
fn gather<B: Brain>(hub: &Hub<B>, pass: &mut Pass<Crew<B>>, mut all: Vec<Worker<B>>) -> Came
    requires free { IsFree hub.now pass.old }
    requires workers { Each (λ worker. IsFree hub.now worker.pass) all.items }
    ensures free { IsFree hub.now pass.new }
    ensures begins { IsPrefix pass.old.seen pass.new.seen }
    ensures each { Each (λ worker. IsPrefix worker.pass.seen pass.new.seen) all.items }
    ensures came { CameOf all.items result }
{
    let mut came = Came::Still;
    while let Some(worker) = all.pop() {
        hub.join(pass, worker.pass);
        came = came.then(worker.came);
    }
    came
}

/// Has the workers of a round do their work, each in a thread of its own.
fn work_all<B: Brain + Send + Sync, R: Threads + Wait + Sync, G: Gate + Sync>(
    rt: &R,
    hub: &Hub<B>,
    all: &mut [Worker<B>],
    share: &Share,
    max: u64,
    gate: &G,
)
    requires workers { 0 < share.now.workers }
    requires free { All (λ worker. IsFree hub.now worker.pass) all.old }
    ensures { HaveWorked (brain_of B.next B.instance) hub.now max share.now.workers
        share.now.units.now all.old all.new }
{
    for_each_mut(
        rt,
        all,
        share.workers,
        &|number: usize, worker: &mut Worker<B>|
            requires { IsFree hub.now worker.now.pass × (0 < share.now.workers) }
            ensures { HasWorked (brain_of B.next B.instance) hub.entry.now max
                share.entry.now.workers share.entry.now.units.now number worker.entry.now
                worker.exit.now }
        { worker.work(rt, hub, gate, share, number, max) },
    );
}

/// The workers of a round, which have done its work, each in a thread of its own.
fn worked<B: Brain + Send + Sync, R: Threads + Wait + Sync, G: Gate + Sync>(
    rt: &R,
    alloc: Global,
    hub: &Hub<B>,
    pass: &mut Pass<Crew<B>>,
    workers: usize,
    max: u64,
    gate: &G,
) -> Result<Vec<Worker<B>>, NoMemory>
    requires workers { 0 < workers }
    requires free { IsFree hub.now pass.old }
    ensures free { IsFree hub.now pass.new }
    ensures begins { IsPrefix pass.old.seen pass.new.seen }
    ensures round { IfOk result (λ all. IsRound (brain_of B.next B.instance) hub.now max workers
        pass.new.seen all.items) }
{
    let units = hub.units(rt, pass)?;
    let mut all = hire(alloc, hub, pass, workers)?;
    let share = Share {
        units: units.as_slice(),
        workers,
    };
    work_all(rt, hub, all.as_mut_slice(), &share, max, gate);
    Ok(all)
}

/// One round of workers.
fn round<B: Brain + Send + Sync, R: Threads + Wait + Sync, G: Gate + Sync>(
    rt: &R,
    alloc: Global,
    hub: &Hub<B>,
    pass: &mut Pass<Crew<B>>,
    workers: usize,
    max: u64,
    gate: &G,
) -> Result<Came, NoMemory>
    requires workers { 0 < workers }
    requires free { IsFree hub.now pass.old }
    ensures free { IsFree hub.now pass.new }
    ensures begins { IsPrefix pass.old.seen pass.new.seen }
    ensures grew { IfOk result (λ came. Grew max came pass.old.seen pass.new.seen) }
    ensures served { IfOk result (λ came. UnlessOver came (AreServed (brain_of B.next B.instance)
        hub.now.origin pass.old.seen pass.new.seen)) }
{
    let all = worked(rt, alloc, hub, pass, workers, max, gate)?;
    Ok(gather(hub, pass, all))
}

/// Whether a round is to follow another one.
fn goes_on(came: Came) -> Result<bool, NoMemory>
    ensures goes { IfOk result (λ goes. goes ≡ true → came ≡ Moved) }
    ensures ends { IfOk result (λ goes. goes ≡ false → (came ≡ Still) ⊎ (came ≡ Full)) }
{
    match came {
        Came::Moved => Ok(true),
        Came::Still | Came::Full => Ok(false),
        Came::NoMemory => Err(NoMemory),
    }
}

/// Has workers give the units their turns, in rounds, until a round appends nothing or the journal
/// has `max` entries. In a round each worker has its own part of the units that exist when it
/// begins, and gives each of them up to 64 steps. Where there is no memory, the turns that were
/// booked before stay, and the pass may not have seen all of them.
pub fn run<B: Brain + Send + Sync, R: Threads + Wait + Sync, G: Gate + Sync>(
    rt: &R,
    alloc: Global,
    hub: &Hub<B>,
    pass: &mut Pass<Crew<B>>,
    workers: u32,
    max: u64,
    gate: &G,
) -> Result<(), NoMemory>
    requires workers { 1 ≤ workers }
    requires pass { IsFree hub.now pass.old }
    ensures pass { IsFree hub.now pass.new }
    ensures begins { IsPrefix pass.old.seen pass.new.seen }
    ensures ran { OnOk result (HaveRun (brain_of B.next B.instance) hub.now.origin max
        pass.old.seen pass.new.seen) }
{
    let workers = workers as usize;
    while goes_on(round(rt, alloc, hub, pass, workers, max, gate)?)? {}
    Ok(())
}
