//! A trading floor, from its two files to the text of its run.

ghost use Rattle.std.specs.Prelude.{◌≡◌, ◌≤◌, ◌<◌, ℕ, List, [], ◌∷◌, All, IfErr, IfOk, length};
ghost use Rattle.df_config.specs.ConfigFile.{IsConfigFile};
ghost use Rattle.df_config.specs.ConfigForm.{IsConfig};
ghost use Rattle.df_run.specs.Making.{IsOfFloor, Stops, StopsAt, TellsFloor, TellsWork, end_of_floor};
ghost use Rattle.df_run.specs.Outcome.{IsTextOfSome, OfRead, files_told, told_at};
ghost use Rattle.df_ticks.specs.TickFile.{IsTick, IsTickFile};
ghost use Rattle.df_words.specs.Words.{texts};
ghost use Rattle.df_words.specs.declared.command.Command.{Command};
ghost use Rattle.df_words.specs.declared.command.Command.TheVariants.{Floor, FloorWorkers};

use crate::input::input_of;
use crate::status::{BadKind, Status};
use crate::tasks::{End, Kept, Output};
use df_config::{Config, ConfigRefused, read_config};
use df_floor_run::{FloorEnd, FloorRun, run_floor, run_floor_by};
use df_io::Shelf;
use df_memory::NoMemory;
use df_ticks::{Tick, TicksRefused, read_ticks};
use df_workers::Gate;
use std::alloc::Global;
use std::sync::Wait;
use std::thread::Threads;

/// The configuration and the ticks of a floor's files. The ticks are read once the configuration was
/// judged.
fn files_at<F: Shelf>(
    alloc: Global,
    words: &[String],
    first: usize,
    second: usize,
    shelf: &mut F,
) -> Result<(Config, Vec<Tick>), Status>
    requires first { first < length words.now }
    requires second { second < length words.now }
    ensures config { IfOk result (λ files. OfRead
        (told_at (F.bytes shelf.old) (texts words.now) first)
        (λ bytes. IsConfigFile bytes files.0)) }
    ensures ticks { IfOk result (λ files. OfRead
        (told_at (F.bytes shelf.old) (texts words.now) second)
        (λ bytes. IsTickFile bytes files.1.items)) }
    ensures in_form { IfOk result (λ files. IsConfig files.0 × All IsTick files.1.items) }
    ensures stops { (command : Command) → IsOfFloor command → IfErr result (Stops command
        (told_at (F.bytes shelf.old) (texts words.now) first
        ∷ told_at (F.bytes shelf.old) (texts words.now) second ∷ [])
        (F.faults shelf.old) (F.faults shelf.new)) }
{
    let config = match config_at(alloc, words, first, shelf) {
        Ok(config) => config,
        Err(status) => return Err(status),
    };
    match ticks_at(alloc, words, second, shelf) {
        Ok(ticks) => Ok((config, ticks)),
        Err(status) => Err(status),
    }
}

/// What the floor of these files writes.
pub fn floor_of<F: Shelf>(
    alloc: Global,
    words: &[String],
    first: usize,
    second: usize,
    shelf: &mut F,
) -> Result<Output, Status>
    requires first { first < length words.now }
    requires second { second < length words.now }
    ensures makes { IfOk result (λ o. IsTextOfSome (Floor first second)
        (files_told (F.bytes shelf.old) (texts words.now) (Floor first second))
        o.end o.text.items) }
    ensures stops { IfErr result (Stops (Floor first second)
        (files_told (F.bytes shelf.old) (texts words.now) (Floor first second))
        (F.faults shelf.old) (F.faults shelf.new)) }
{
    let (config, ticks) = match files_at(alloc, words, first, second, shelf) {
        Ok(files) => files,
        Err(status) => return Err(status),
    };
    match run_of(alloc, &config, ticks) {
        Ok(output) => Ok(output),
        Err(NoMemory) => Err(Status::NoMemory),
    }
}

/// What the floor of these files writes, of which workers give the units their turns.
pub fn floor_by<R: Threads + Wait + Sync, F: Shelf, G: Gate + Sync>(
    rt: &R,
    alloc: Global,
    words: &[String],
    first: usize,
    second: usize,
    workers: u32,
    shelf: &mut F,
    gate: &G,
) -> Result<Output, Status>
    requires first { first < length words.now }
    requires second { second < length words.now }
    requires workers { 1 ≤ workers }
    ensures makes { IfOk result (λ o. IsTextOfSome (FloorWorkers first second workers)
        (files_told (F.bytes shelf.old) (texts words.now) (FloorWorkers first second workers))
        o.end o.text.items) }
    ensures stops { IfErr result (Stops (FloorWorkers first second workers)
        (files_told (F.bytes shelf.old) (texts words.now) (FloorWorkers first second workers))
        (F.faults shelf.old) (F.faults shelf.new)) }
{
    let (config, ticks) = match files_at(alloc, words, first, second, shelf) {
        Ok(files) => files,
        Err(status) => return Err(status),
    };
    match work_of(rt, alloc, &config, ticks, workers, gate) {
        Ok(output) => Ok(output),
        Err(NoMemory) => Err(Status::NoMemory),
    }
}

/// The configuration of a floor's first file.
fn config_at<F: Shelf>(
    alloc: Global,
    words: &[String],
    place: usize,
    shelf: &mut F,
) -> Result<Config, Status>
    requires { place < length words.now }
    ensures read { IfOk result (λ c. OfRead
        (told_at (F.bytes shelf.old) (texts words.now) place) (λ bytes. IsConfigFile bytes c)) }
    ensures in_form { IfOk result IsConfig }
    ensures stops { (command : Command) → IsOfFloor command → IfErr result (StopsAt command 1
        (told_at (F.bytes shelf.old) (texts words.now) place)
        (F.faults shelf.old) (F.faults shelf.new)) }
    ensures never_falls { F.faults shelf.old ≤ F.faults shelf.new }
    ensures same { (n : List ℕ) → F.bytes shelf.new n ≡ F.bytes shelf.old n }
{
    let bytes = match input_of(alloc, words, place, 1, shelf) {
        Ok(bytes) => bytes,
        Err(status) => return Err(status),
    };
    match read_config(alloc, bytes.as_slice()) {
        Ok(config) => Ok(config),
        Err(ConfigRefused::BadConfig) => Err(Status::BadInput {
            input: 1,
            line: 0,
            kind: BadKind::BadConfig,
        }),
        Err(ConfigRefused::NoMemory) => Err(Status::NoMemory),
    }
}

/// The ticks of a floor's second file.
fn ticks_at<F: Shelf>(
    alloc: Global,
    words: &[String],
    place: usize,
    shelf: &mut F,
) -> Result<Vec<Tick>, Status>
    requires { place < length words.now }
    ensures read { IfOk result (λ ticks. OfRead
        (told_at (F.bytes shelf.old) (texts words.now) place)
        (λ bytes. IsTickFile bytes ticks.items)) }
    ensures in_form { IfOk result (λ ticks. All IsTick ticks.items) }
    ensures stops { (command : Command) → IsOfFloor command → IfErr result (StopsAt command 2
        (told_at (F.bytes shelf.old) (texts words.now) place)
        (F.faults shelf.old) (F.faults shelf.new)) }
{
    let bytes = match input_of(alloc, words, place, 2, shelf) {
        Ok(bytes) => bytes,
        Err(status) => return Err(status),
    };
    match read_ticks(alloc, bytes.as_slice()) {
        Ok(ticks) => Ok(ticks),
        Err(TicksRefused::BadTick { line }) => Err(Status::BadInput {
            input: 2,
            line,
            kind: BadKind::BadTick,
        }),
        Err(TicksRefused::NoMemory) => Err(Status::NoMemory),
    }
}

/// What is written of the plain run of a floor, and how the run ends.
fn run_of(alloc: Global, config: &Config, ticks: Vec<Tick>) -> Result<Output, NoMemory>
    requires config { IsConfig config.now }
    requires ticks { All IsTick ticks.items }
    ensures { IfOk result (λ o. TellsFloor config.now ticks.items o.end o.text.items) }
{
    let run = run_floor(alloc, config, ticks)?;
    Ok(told(run))
}

/// What is written of a run of a floor by workers, and how the run ends.
fn work_of<R: Threads + Wait + Sync, G: Gate + Sync>(
    rt: &R,
    alloc: Global,
    config: &Config,
    ticks: Vec<Tick>,
    workers: u32,
    gate: &G,
) -> Result<Output, NoMemory>
    requires config { IsConfig config.now }
    requires ticks { All IsTick ticks.items }
    requires workers { 1 ≤ workers }
    ensures { IfOk result (λ o. TellsWork config.now ticks.items o.end o.text.items) }
{
    let run = run_floor_by(rt, alloc, config, ticks, workers, gate)?;
    Ok(told(run))
}

/// What is written of a run, how it ends, and its crew.
fn told(run: FloorRun) -> Output
    ensures text { result.text.items ≡ run.text.items }
    ensures end { result.end ≡ end_of_floor run.end }
{
    let FloorRun { text, end, crew } = run;
    let end = match end {
        FloorEnd::Quiet => End::Done,
        FloorEnd::Unsettled { steps } => End::Unsettled { steps },
    };
    let kept = Kept::Crew(crew);
    Output { text, end, kept }
}
