//! The load: one floor, and ticks that a generator makes.

ghost use Rattle.std.specs.Prelude.{◌≡◌, ◌≤◌, [], IfOk};
ghost use Rattle.df_floor_run.specs.Load.{IsLoadText, load_config, load_pair, load_pairs, load_trader, load_traders};
ghost use Rattle.df_floor_run.specs.code.Running.{TellsReport};

use crate::journal::report_of;
use crate::run::FloorRun;
use crate::running::{fresh_crew, run_crew};
use df_config::{Config, PairNumbers, PairRow, PairRows, TraderRow, TraderRows};
use df_crew::Crew;
use df_floor_units::FloorBrain;
use df_frozen::Words;
use df_gen::gen_ticks;
use df_memory::NoMemory;
use std::alloc::Global;

fn load_pair(alloc: Global, first: &str, second: &str) -> Result<PairRow, NoMemory>
    ensures { IfOk result (λ row. row ≡ load_pair first.now second.now) }
{
    Ok(PairRow {
        first: Words::new(alloc, first)?,
        second: Words::new(alloc, second)?,
        threshold: 60,
    })
}

fn load_pairs(alloc: Global) -> Result<PairRows, NoMemory>
    ensures { IfOk result (λ rows. rows ≡ load_pairs) }
{
    let mut rows = Vec::new(alloc);
    rows.push(load_pair(alloc, "AAA", "BBB")?)?;
    rows.push(load_pair(alloc, "CCC", "DDD")?)?;
    Ok(PairRows::new(rows))
}

fn load_trader(
    alloc: Global,
    pairs: &[u32],
    quantity: i64,
    contrary: bool,
) -> Result<TraderRow, NoMemory>
    ensures { IfOk result (λ row. row ≡ load_trader pairs.now quantity contrary) }
{
    let mut numbers = Vec::new(alloc);
    numbers.extend_from_slice(pairs)?;
    Ok(TraderRow {
        pairs: PairNumbers::new(numbers),
        quantity,
        slack: 20,
        contrary,
    })
}

fn load_traders(alloc: Global) -> Result<TraderRows, NoMemory>
    ensures { IfOk result (λ rows. rows ≡ load_traders) }
{
    let mut rows = Vec::new(alloc);
    rows.push(load_trader(alloc, &[0, 1], 10, false)?)?;
    rows.push(load_trader(alloc, &[0], 7, true)?)?;
    rows.push(load_trader(alloc, &[1], 4, true)?)?;
    Ok(TraderRows::new(rows))
}

/// The configuration of the load: two pairs, and three traders with four monitors.
pub fn load_config(alloc: Global) -> Result<Config, NoMemory>
    ensures { IfOk result (λ config. config ≡ load_config) }
{
    Ok(Config {
        max_steps: 1_000_000,
        pairs: load_pairs(alloc)?,
        traders: load_traders(alloc)?,
        window: 8,
    })
}

/// The run of the load on the first n ticks of a key, whose text is its summary. It always comes to
/// rest.
pub fn run_load(alloc: Global, key: u64, n: u32) -> Result<FloorRun, NoMemory>
    requires { n ≤ 4_000 }
    ensures { IfOk result (λ run. IsLoadText key n run.text.items) }
{
    let config = load_config(alloc)?;
    let ticks = gen_ticks(alloc, key, n)?;
    let crew = fresh_crew(alloc, &config, ticks)?;
    told_report(alloc, crew, config.max_steps)
}

/// Makes the plain run of a crew, and its summary.
fn told_report(alloc: Global, mut crew: Crew<FloorBrain>, max: u64) -> Result<FloorRun, NoMemory>
    requires { crew.core.1 ≡ [] }
    ensures { IfOk result (λ run. TellsReport max crew run.text.items) }
{
    let end = run_crew(alloc, &mut crew, max)?;
    let text = report_of(alloc, crew.core())?;
    Ok(FloorRun { text, end, crew })
}
