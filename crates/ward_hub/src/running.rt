//! The run of a crew on a hub.

ghost use Rattle.std.specs.Prelude.{◌≡◌, ◌≤◌, [], IfOk};
ghost use Rattle.df_crew.specs.Seen.{origin_of, seen_of};
ghost use Rattle.df_desk.specs.Pass.{IsFree};
ghost use Rattle.df_rules.specs.Follows.{brain_of};
ghost use Rattle.df_workers.specs.Serving.{HaveRun};
ghost use Rattle.ward_units.specs.Role.{instance, next};

use df_crew::Crew;
use df_desk::Pass;
use df_hub::Hub;
use df_memory::NoMemory;
use df_plain_floor::open_turns;
use df_workers::{OpenGate, run};
use std::alloc::Global;
use std::sync::Wait;
use std::thread::Threads;
use ward_units::Role;

/// A hub with this crew, and its first pass.
fn hub_of(alloc: Global, crew: Crew<Role>) -> Result<(Hub<Role>, Pass<Crew<Role>>), NoMemory>
    ensures origin { IfOk result (λ made. made.0.origin ≡ origin_of crew) }
    ensures free { IfOk result (λ made. IsFree made.0 made.1) }
    ensures seen { IfOk result (λ made. made.1.seen ≡ seen_of crew) }
{
    match Hub::new(alloc, crew) {
        Ok(made) => Ok(made),
        Err(_) => Err(NoMemory),
    }
}

/// Has threads give the units their turns, and hands the crew back.
fn run_on_hub<R: Threads + Wait + Sync>(
    rt: &R,
    alloc: Global,
    crew: Crew<Role>,
    workers: u32,
    max: u64,
) -> Result<Crew<Role>, NoMemory>
    requires { 1 ≤ workers }
    ensures origin { IfOk result (λ after. origin_of after ≡ origin_of crew) }
    ensures ran { IfOk result (λ after. HaveRun (brain_of next instance) (origin_of crew) max
        (seen_of crew) (seen_of after)) }
{
    let (hub, mut pass) = hub_of(alloc, crew)?;
    run(rt, alloc, &hub, &mut pass, workers, max, &OpenGate)?;
    Ok(hub.finish(rt, pass))
}

/// Runs a crew by threads. All units but the ward take their first turns before: what the ward
/// publishes is handed to those who asked for it by then.
pub(crate) fn run_crew<R: Threads + Wait + Sync>(
    rt: &R,
    alloc: Global,
    mut crew: Crew<Role>,
    workers: u32,
    max: u64,
) -> Result<Crew<Role>, NoMemory>
    requires workers { 1 ≤ workers }
    requires fresh { crew.core.1 ≡ [] }
    ensures origin { IfOk result (λ after. origin_of after ≡ origin_of crew) }
    ensures ran { IfOk result (λ after. HaveRun (brain_of next instance) (origin_of crew) max
        (seen_of crew) (seen_of after)) }
{
    open_turns(&mut crew, max)?;
    run_on_hub(rt, alloc, crew, workers, max)
}
