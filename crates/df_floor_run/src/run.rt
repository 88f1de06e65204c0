//! The plain run of a floor, and its text.

ghost use Rattle.std.specs.Prelude.{◌≡◌, [], All, IfOk};
ghost use Rattle.df_config.specs.ConfigForm.{IsConfig};
ghost use Rattle.df_floor_run.specs.FloorRun.{IsFloorRun};
ghost use Rattle.df_floor_run.specs.code.Running.{TellsRun};
ghost use Rattle.df_ticks.specs.TickFile.{IsTick};

use crate::journal::run_text;
use crate::running::{fresh_crew, run_crew};
use df_config::Config;
use df_crew::Crew;
use df_floor_units::FloorBrain;
use df_memory::NoMemory;
use df_ticks::Tick;
use std::alloc::Global;

/// How a run of a floor ends.
#[derive(Clone, Copy, Debug, PartialEq, Eq)]
pub enum FloorEnd {
    /// Each unit waits, and no delivery is left to it.
    Quiet,
    /// The journal has as many entries as the configuration allows, or some more, with which its
    /// last turn ended.
    Unsettled { steps: u64 },
}

/// What is written of a run of a floor, how the run ended, and the crew that it left.
#[derive(Drop)]
pub struct FloorRun {
    pub text: Vec<u8>,
    pub end: FloorEnd,
    pub crew: Crew<FloorBrain>,
}

/// Runs a floor on ticks by the plain scheduler. The text is that of its journal and of its
/// summary, also where the run didn't settle.
pub fn run_floor(alloc: Global, config: &Config, ticks: Vec<Tick>) -> Result<FloorRun, NoMemory>
    requires config { IsConfig config.now }
    requires ticks { All IsTick ticks.items }
    ensures { IfOk result (λ run.
        IsFloorRun config.now ticks.items run.text.items run.end) }
{
    let crew = fresh_crew(alloc, config, ticks)?;
    told_run(alloc, crew, config.max_steps)
}

/// Makes the plain run of a crew, and its text.
fn told_run(alloc: Global, mut crew: Crew<FloorBrain>, max: u64) -> Result<FloorRun, NoMemory>
    requires { crew.core.1 ≡ [] }
    ensures { IfOk result (λ run. TellsRun max crew run.text.items run.end) }
{
    let end = run_crew(alloc, &mut crew, max)?;
    let text = run_text(alloc, crew.core())?;
    Ok(FloorRun { text, end, crew })
}
