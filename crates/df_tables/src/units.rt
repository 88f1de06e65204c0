//! The units, each with its own state and what it is to be handed.

ghost use Rattle.std.specs.Prelude.{◌≡◌, ◌<◌, Some, IfOk, OnOk, OnErr};
ghost use Rattle.df_unit.specs.declared.name.UnitName.{UnitName};
ghost use Rattle.df_roll.specs.Roll.{seat_of};
ghost use Rattle.df_tables.specs.Labels.{AreLabels, inputs};
ghost use Rattle.df_tables.specs.Table.{first_row, place_of};

use crate::line::Line;
use df_label::{Label, Privileges};
use df_local::Local;
use df_memory::NoMemory;
use df_roll::Roll;
use df_unit::UnitName;
use std::alloc::Global;
use std::cmp::Ordering;

/// A unit: its own state, and what it is to be handed.
#[derive(Drop)]
pub struct Unit {
    pub local: Local,
    pub line: Line,
}

/// A root's row as it begins.
pub fn first_unit(
    alloc: Global,
    number: u32,
    label: Label,
    privileges: Privileges,
) -> Result<Unit, NoMemory>
    ensures { IfOk result (λ u. u ≡ first_row number (label, privileges)) }
{
    Ok(Unit {
        local: Local::of_root(alloc, number, label, privileges)?,
        line: Line::new(alloc),
    })
}

/// The places of rows.
pub fn first_roll(alloc: Global, units: &[Unit]) -> Result<Roll, NoMemory>
    ensures { IfOk result (λ r. (n : UnitName) → seat_of n r.seats ≡ place_of n units.now) }
{
    let mut roll = Roll::new(alloc);
    for (place, unit) in units.iter().enumerate() {
        let name = unit.local.name().copy()?;
        roll.reserve(1)?;
        roll.seat(name, place);
    }
    Ok(roll)
}

/// The labels at which units read.
pub fn labels_of(alloc: Global, units: &[Unit]) -> Result<Vec<Label>, NoMemory>
    ensures { IfOk result (λ v. v.items ≡ inputs units.now) }
{
    let mut labels = Vec::new(alloc);
    for unit in units {
        labels.push(unit.local.input().copy()?)?;
    }
    Ok(labels)
}

/// The label of the unit at a place is that of now.
fn renew(units: &[Unit], place: usize, labels: &mut Vec<Label>) -> Result<(), NoMemory>
    requires { AreLabels (inputs units.now) labels.old.items (Some place) }
    ensures ok { OnOk result (labels.new.items ≡ inputs units.now) }
    ensures unchanged { OnErr result (labels.new.items ≡ labels.old.items) }
{
    let label = units[place].local.input().copy()?;
    labels[place] = label;
    Ok(())
}

/// All labels are those of now.
pub fn refresh(
    units: &[Unit],
    labels: &mut Vec<Label>,
    stale: Option<usize>,
) -> Result<(), NoMemory>
    requires { AreLabels (inputs units.now) labels.old.items stale }
    ensures ok { OnOk result (labels.new.items ≡ inputs units.now) }
    ensures unchanged { OnErr result (labels.new.items ≡ labels.old.items) }
{
    match stale {
        None => Ok(()),
        Some(place) => renew(units, place, labels),
    }
}
