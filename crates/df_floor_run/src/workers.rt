//! The run of a floor by workers, and its text.

ghost use Rattle.std.specs.Prelude.{◌≡◌, ◌≤◌, [], All, IfOk, length, true};
ghost use mathlib.Core.List.{IsPrefix};
ghost use Rattle.df_config.specs.ConfigForm.{IsConfig};
ghost use Rattle.df_crew.specs.Growing.{IsMore};
ghost use Rattle.df_crew.specs.Seen.{origin_of, seen_of};
ghost use Rattle.df_desk.specs.Pass.{IsFree};
ghost use Rattle.df_floor_run.specs.FloorRun.{IsWorkedRun, run_text};
ghost use Rattle.df_floor_run.specs.code.Running.{TellsWorked, Worked};
ghost use Rattle.df_plain_floor.specs.PlainRun.{is_full};
ghost use Rattle.df_ticks.specs.TickFile.{IsTick};

use crate::journal::run_text;
use crate::run::{FloorEnd, FloorRun};
use crate::running::{end_of, entries, fresh_crew};
use df_config::Config;
use df_crew::Crew;
use df_desk::Pass;
use df_floor_units::FloorBrain;
use df_hub::Hub;
use df_memory::NoMemory;
use df_plain_floor::{open_turns, run_passes};
use df_ticks::Tick;
use df_workers::{Gate, run};
use std::alloc::Global;
use std::sync::Wait;
use std::thread::Threads;

/// Has workers go over a hub until they come to rest or to the limit, and takes its crew.
fn serve_hub<R: Threads + Wait + Sync, G: Gate + Sync>(
    rt: &R,
    alloc: Global,
    hub: &Hub<FloorBrain>,
    mut pass: Pass<Crew<FloorBrain>>,
    workers: u32,
    max: u64,
    gate: &G,
) -> Result<Crew<FloorBrain>, NoMemory>
    requires workers { 1 ≤ workers }
    requires pass { IsFree hub.now pass }
    ensures origin { IfOk result (λ after. origin_of after ≡ hub.now.origin) }
    ensures begins { IfOk result (λ after. IsPrefix pass.seen (seen_of after)) }
{
    let ran = run(rt, alloc, hub, &mut pass, workers, max, gate);
    let crew = hub.finish(rt, pass);
    ran?;
    Ok(crew)
}

/// Has workers give the units of a crew their turns.
fn serve<R: Threads + Wait + Sync, G: Gate + Sync>(
    rt: &R,
    alloc: Global,
    crew: Crew<FloorBrain>,
    workers: u32,
    max: u64,
    gate: &G,
) -> Result<Crew<FloorBrain>, NoMemory>
    requires { 1 ≤ workers }
    ensures { IfOk result (λ after. IsMore crew after) }
{
    match Hub::new(alloc, crew) {
        Ok((hub, pass)) => serve_hub(rt, alloc, &hub, pass, workers, max, gate),
        Err(_) => Err(NoMemory),
    }
}

/// Has workers give the units of a crew their turns, unless its journal has as many entries as it
/// may have.
fn serve_below<R: Threads + Wait + Sync, G: Gate + Sync>(
    rt: &R,
    alloc: Global,
    crew: Crew<FloorBrain>,
    workers: u32,
    max: u64,
    gate: &G,
) -> Result<Crew<FloorBrain>, NoMemory>
    requires { 1 ≤ workers }
    ensures more { IfOk result (λ after. IsMore crew after) }
    ensures stopped { is_full max crew ≡ true → IfOk result (λ after. after ≡ crew) }
{
    if max <= entries(&crew) {
        return Ok(crew);
    }
    serve(rt, alloc, crew, workers, max, gate)
}

/// Gives the units of a crew turns: the plain opening, then by workers, then plain passes.
fn work<R: Threads + Wait + Sync, G: Gate + Sync>(
    rt: &R,
    alloc: Global,
    mut crew: Crew<FloorBrain>,
    workers: u32,
    max: u64,
    gate: &G,
) -> Result<(Crew<FloorBrain>, FloorEnd), NoMemory>
    requires workers { 1 ≤ workers }
    requires fresh { crew.core.1 ≡ [] }
    ensures { IfOk result (λ worked. Worked max crew worked.0 worked.1) }
{
    open_turns(&mut crew, max)?;
    let mut crew = serve_below(rt, alloc, crew, workers, max, gate)?;
    let ended = run_passes(alloc, &mut crew, max)?;
    let end = end_of(ended, &crew);
    Ok((crew, end))
}

/// The text of what workers made of a crew.
fn told_work<R: Threads + Wait + Sync, G: Gate + Sync>(
    rt: &R,
    alloc: Global,
    crew: Crew<FloorBrain>,
    workers: u32,
    max: u64,
    gate: &G,
) -> Result<FloorRun, NoMemory>
    requires workers { 1 ≤ workers }
    requires fresh { crew.core.1 ≡ [] }
    ensures { IfOk result (λ run. TellsWorked max crew run.text.items run.end) }
{
    let (crew, end) = work(rt, alloc, crew, workers, max, gate)?;
    let text = run_text(alloc, crew.core())?;
    Ok(FloorRun { text, end, crew })
}

/// Runs a floor on ticks: the plain opening, then rounds of workers, and then plain passes, until it
/// is at rest or at its limit of entries. The text is that of its journal and of its summary, also
/// where the run didn't settle. Which of the floor's journals it is, the threads decide.
pub fn run_floor_by<R: Threads + Wait + Sync, G: Gate + Sync>(
    rt: &R,
    alloc: Global,
    config: &Config,
    ticks: Vec<Tick>,
    workers: u32,
    gate: &G,
) -> Result<FloorRun, NoMemory>
    requires config { IsConfig config.now }
    requires ticks { All IsTick ticks.items }
    requires workers { 1 ≤ workers }
    ensures { IfOk result (λ run.
        IsWorkedRun config.now ticks.items run.text.items run.end) }
{
    let crew = fresh_crew(alloc, config, ticks)?;
    told_work(rt, alloc, crew, workers, config.max_steps, gate)
}
