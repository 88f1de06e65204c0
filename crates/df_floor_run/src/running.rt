//! The run of a crew of a floor.

ghost use Rattle.std.specs.Prelude.{◌≡◌, [], All, IfOk, length};
ghost use Rattle.df_config.specs.ConfigForm.{IsConfig};
ghost use Rattle.df_booking.specs.Manned.{IsFollowed};
ghost use Rattle.df_floor_run.specs.FloorRun.{fresh_crew};
ghost use Rattle.df_floor_run.specs.code.Running.{Ran, end_of};
ghost use Rattle.df_settling.specs.Settling.{floor_brain};
ghost use Rattle.df_ticks.specs.TickFile.{IsTick};

use crate::run::FloorEnd;
use df_config::Config;
use df_crew::Crew;
use df_floor::{floor_brains, floor_start};
use df_floor_units::{FloorBrain, Ticks};
use df_memory::NoMemory;
use df_plain_floor::{Ended, run_turns};
use df_ticks::Tick;
use std::alloc::Global;

/// The crew of a floor, before its first turn.
pub(crate) fn fresh_crew(
    alloc: Global,
    config: &Config,
    ticks: Vec<Tick>,
) -> Result<Crew<FloorBrain>, NoMemory>
    requires config { IsConfig config.now }
    requires ticks { All IsTick ticks.items }
    ensures { IfOk result (λ crew. crew ≡ fresh_crew config.now ticks.items) }
{
    let ticks = Ticks::new(alloc, ticks)?;
    let start = floor_start(alloc, config)?;
    let brains = floor_brains(alloc, config, &ticks)?;
    Crew::start(alloc, start, brains)
}

/// How a run is told that ended so, with so many entries.
fn told_end(ended: Ended, steps: u64) -> FloorEnd
    ensures { result ≡ end_of ended steps }
{
    match ended {
        Ended::Quiet => FloorEnd::Quiet,
        Ended::Limit => FloorEnd::Unsettled { steps },
    }
}

/// How many entries the journal of a crew has.
pub(crate) fn entries(crew: &Crew<FloorBrain>) -> u64
    ensures { result ≡ length crew.now.core.1 }
{
    crew.core().journal().len() as u64
}

/// How a run ended that led to a crew.
pub(crate) fn end_of(ended: Ended, crew: &Crew<FloorBrain>) -> FloorEnd
    ensures end { result ≡ end_of ended (length crew.now.core.1) }
    ensures followed { IsFollowed floor_brain crew.now.brains crew.now.core }
{
    let core = crew.core();
    told_end(ended, core.journal().len() as u64)
}

/// Makes the plain run of a crew.
pub(crate) fn run_crew(
    alloc: Global,
    crew: &mut Crew<FloorBrain>,
    max: u64,
) -> Result<FloorEnd, NoMemory>
    requires { crew.old.core.1 ≡ [] }
    ensures { IfOk result (Ran max crew.old crew.new) }
{
    let ended = run_turns(alloc, crew, max)?;
    Ok(end_of(ended, crew))
}
