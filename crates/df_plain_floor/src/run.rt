//! The plain opening, the plain passes, and the plain run of both.

ghost use Rattle.std.specs.Prelude.{◌≡◌, ◌↔◌, [], IfOk, OnOk, false, length, true};
ghost use Rattle.df_crew.specs.Growing.{IsMore};
ghost use Rattle.df_plain_floor.specs.Grown.{AreTurns, IsAppending};
ghost use Rattle.df_plain_floor.specs.PlainRun.{ArePasses, IsAtLimit, IsOpening, IsPlainRun, IsQuiet, IsTurn, RunsOut, is_full};
ghost use Rattle.df_plain_floor.specs.declared.run.Ended.TheVariants.{Limit, Quiet};
ghost use Rattle.df_rules.specs.Follows.{brain_of};

use crate::turns::{entries, pass, take_turn};
use df_brain::Brain;
use df_crew::Crew;
use df_memory::NoMemory;
use df_unit::{Path, UnitName};
use std::alloc::Global;

/// How a run ends.
#[derive(Clone, Copy, Debug, PartialEq, Eq)]
pub enum Ended {
    /// Each unit waits, and no delivery is left to it.
    Quiet,
    /// The journal has as many entries as it may have.
    Limit,
}

/// Gives a unit a turn, and answers whether it appended something.
fn appends<B: Brain>(crew: &mut Crew<B>, unit: &UnitName, max: u64) -> Result<bool, NoMemory>
    ensures turn { OnOk result (IsTurn (brain_of B.next B.instance) max unit.now
        crew.old crew.new) }
    ensures appending { IfOk result (λ b. IsAppending max b crew.old crew.new) }
    ensures turns { AreTurns (brain_of B.next B.instance) max crew.old crew.new }
{
    let before = entries(crew);
    take_turn(crew, unit, max)?;
    Ok(entries(crew) != before)
}

/// Gives a unit turns until one appends nothing.
fn open_unit<B: Brain>(crew: &mut Crew<B>, unit: &UnitName, max: u64) -> Result<(), NoMemory>
    ensures opened { OnOk result (RunsOut (IsTurn (brain_of B.next B.instance) max unit.now)
        crew.old crew.new) }
    ensures turns { AreTurns (brain_of B.next B.instance) max crew.old crew.new }
{
    while appends(crew, unit, max)? {}
    Ok(())
}

/// How many roots there are.
fn roots<B: Brain>(crew: &Crew<B>) -> u32
    ensures { result ≡ length crew.now.core.0 }
{
    crew.core().start_of().as_slice().len() as u32
}

/// The plain opening: the roots but the first take turns, one root after the other, each until it
/// appends nothing more. Where there is no memory, the turns that were booked before stay.
pub fn open_turns<B: Brain>(crew: &mut Crew<B>, max: u64) -> Result<(), NoMemory>
    requires { crew.old.core.1 ≡ [] }
    ensures opening { OnOk result (IsOpening (brain_of B.next B.instance) max
        crew.old crew.new) }
    ensures turns { AreTurns (brain_of B.next B.instance) max crew.old crew.new }
    ensures more { IsMore crew.old crew.new }
    ensures full { is_full max crew.old ≡ true → crew.new ≡ crew.old }
{
    for others in 0..roots(crew).saturating_sub(1) {
        let unit = UnitName::Root(Path::root(others + 1));
        open_unit(crew, &unit, max)?;
    }
    Ok(())
}

/// How a run that stands still has ended.
fn outcome<B: Brain>(crew: &Crew<B>) -> Result<Ended, NoMemory>
    ensures { IfOk result (λ e. (e ≡ Quiet) ↔ IsQuiet (brain_of B.next B.instance) crew.now) }
{
    if crew.is_quiet()? {
        Ok(Ended::Quiet)
    } else {
        Ok(Ended::Limit)
    }
}

/// Makes passes until one appends nothing.
fn make_passes<B: Brain>(alloc: Global, crew: &mut Crew<B>, max: u64) -> Result<(), NoMemory>
    ensures passes { OnOk result (ArePasses (brain_of B.next B.instance) max
        crew.old crew.new) }
    ensures rest { OnOk result (is_full max crew.new ≡ false →
        IsQuiet (brain_of B.next B.instance) crew.new) }
    ensures turns { AreTurns (brain_of B.next B.instance) max crew.old crew.new }
{
    while pass(alloc, crew, max)? {}
    Ok(())
}

/// The plain passes, from any crew: the units that exist when a pass begins take one turn each, in
/// their order, until a pass appends nothing. Where there is no memory, the turns that were booked
/// before stay.
pub fn run_passes<B: Brain>(alloc: Global, crew: &mut Crew<B>, max: u64) -> Result<Ended, NoMemory>
    ensures passes { OnOk result (ArePasses (brain_of B.next B.instance) max
        crew.old crew.new) }
    ensures quiet { IfOk result (λ e. (e ≡ Quiet) ↔ IsQuiet (brain_of B.next B.instance)
        crew.new) }
    ensures limit { IfOk result (λ e. (e ≡ Limit) ↔ IsAtLimit (brain_of B.next B.instance) max
        crew.new) }
    ensures turns { AreTurns (brain_of B.next B.instance) max crew.old crew.new }
    ensures more { IsMore crew.old crew.new }
    ensures full { is_full max crew.old ≡ true → crew.new ≡ crew.old }
{
    make_passes(alloc, crew, max)?;
    outcome(crew)
}

/// The plain run: the opening, and then passes. Where there is no memory, the turns that were
/// booked before stay.
pub fn run_turns<B: Brain>(alloc: Global, crew: &mut Crew<B>, max: u64) -> Result<Ended, NoMemory>
    requires { crew.old.core.1 ≡ [] }
    ensures run { OnOk result (IsPlainRun (brain_of B.next B.instance) max
        crew.old crew.new) }
    ensures quiet { IfOk result (λ e. (e ≡ Quiet) ↔ IsQuiet (brain_of B.next B.instance)
        crew.new) }
    ensures limit { IfOk result (λ e. (e ≡ Limit) ↔ IsAtLimit (brain_of B.next B.instance) max
        crew.new) }
    ensures turns { AreTurns (brain_of B.next B.instance) max crew.old crew.new }
    ensures more { IsMore crew.old crew.new }
    ensures full { is_full max crew.old ≡ true → crew.new ≡ crew.old }
{
    open_turns(crew, max)?;
    run_passes(alloc, crew, max)
}
