//! The brains of a floor's roots.

ghost use Rattle.std.specs.Prelude.{◌≡◌, ◌≤◌, ◌<◌, ◌++◌, ◌∷◌, [], ◌≤ℤ◌, pos, All, IfOk, OnOk, length, slice_get};
ghost use Rattle.df_config.specs.ConfigForm.{IsConfig, IsPair, IsTrader};
ghost use Rattle.df_floor_units.specs.Broking.{number_of};
ghost use Rattle.df_floor_units.specs.Floor.{begins};
ghost use Rattle.df_floor_units.specs.declared.kind.Kind.TheVariants as kind;
ghost use Rattle.df_pairs.specs.Divergence.{fresh};
ghost use Rattle.df_floor.specs.Brains.{floor_brains, monitor_brains, monitors_of, trader_brain, trader_brains, watched};

use df_config::{Config, PairRow, TraderRow};
use df_floor_units::{FloorBrain, Ticks};
use df_memory::NoMemory;
use df_messages::Symbol;
use std::alloc::Global;

/// A slack of a trader in form.
fn slack_of(slack: i64) -> u32
    requires from { pos 0 ≤ℤ slack }
    requires to { slack ≤ℤ pos 1_000_000 }
    ensures { result ≡ number_of slack }
{
    slack as u32
}

fn trader_brain(alloc: Global, number: u16, count: usize, row: &TraderRow) -> FloorBrain
    requires { IsTrader count row.now }
    ensures { result ≡ trader_brain number row.now }
{
    FloorBrain::trader(
        alloc,
        number,
        row.quantity,
        slack_of(row.slack),
        row.contrary,
    )
}

fn push_traders(
    alloc: Global,
    count: usize,
    traders: &[TraderRow],
    brains: &mut Vec<FloorBrain>,
) -> Result<(), NoMemory>
    requires few { length traders.now ≤ 64 }
    requires in_form { All (IsTrader count) traders.now }
    ensures { OnOk result (brains.new.items ≡ brains.old.items ++ trader_brains 0 traders.now) }
{
    for i in 0..traders.len() {
        brains.push(trader_brain(alloc, i as u16, count, &traders[i]))?;
    }
    Ok(())
}

fn monitor_brain(alloc: Global, window: u32, row: &PairRow) -> Result<FloorBrain, NoMemory>
    requires window { 1 ≤ window }
    requires in_form { IsPair row.now }
    ensures { IfOk result (λ b. b ≡ begins (kind.Monitor row.now.first row.now.second
        (fresh window row.now.threshold))) }
{
    let first = Symbol::new(&row.first)?;
    let second = Symbol::new(&row.second)?;
    FloorBrain::monitor(alloc, first, second, window, row.threshold)
}

/// The monitor of the pair of a number.
fn monitor_of(
    alloc: Global,
    window: u32,
    pairs: &[PairRow],
    number: u32,
) -> Result<FloorBrain, NoMemory>
    requires window { 1 ≤ window }
    requires in_form { All IsPair pairs.now }
    requires below { number < length pairs.now }
    ensures { IfOk result (λ b. watched window (slice_get pairs.now number) ≡ b ∷ []) }
{
    monitor_brain(alloc, window, &pairs[number as usize])
}

/// The monitors of pairs by their numbers.
fn push_monitors(
    alloc: Global,
    window: u32,
    pairs: &[PairRow],
    numbers: &[u32],
    brains: &mut Vec<FloorBrain>,
) -> Result<(), NoMemory>
    requires window { 1 ≤ window }
    requires in_form { All IsPair pairs.now }
    requires below { All (λ n. n < length pairs.now) numbers.now }
    ensures { OnOk result (brains.new.items
        ≡ brains.old.items ++ monitors_of window pairs.now numbers.now) }
{
    for i in 0..numbers.len() {
        brains.push(monitor_of(alloc, window, pairs, numbers[i])?)?;
    }
    Ok(())
}

fn push_all_monitors(
    alloc: Global,
    config: &Config,
    brains: &mut Vec<FloorBrain>,
) -> Result<(), NoMemory>
    requires { IsConfig config.now }
    ensures { OnOk result (brains.new.items ≡ brains.old.items
        ++ monitor_brains config.now.window config.now.pairs config.now.traders) }
{
    let pairs = config.pairs.as_slice();
    let traders = config.traders.as_slice();
    for i in 0..traders.len() {
        push_monitors(
            alloc,
            config.window,
            pairs,
            traders[i].pairs.as_slice(),
            brains,
        )?;
    }
    Ok(())
}

/// A brain for each root of a floor, in the order of the roots. The ticks are shared.
pub fn floor_brains(
    alloc: Global,
    config: &Config,
    ticks: &Ticks,
) -> Result<Vec<FloorBrain>, NoMemory>
    requires { IsConfig config.now }
    ensures { IfOk result (λ v. v.items ≡ floor_brains config.now ticks.now) }
{
    let traders = config.traders.as_slice();
    let mut brains = Vec::new(alloc);
    brains.push(FloorBrain::exchange(alloc, ticks)?)?;
    brains.push(FloorBrain::broker(alloc, traders.len() as u16))?;
    brains.push(FloorBrain::regulator(alloc))?;
    push_traders(alloc, config.pairs.as_slice().len(), traders, &mut brains)?;
    push_all_monitors(alloc, config, &mut brains)?;
    Ok(brains)
}
