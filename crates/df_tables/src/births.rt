//! The rows of units that come to exist.

ghost use Rattle.std.specs.Prelude.{◌≡◌, ◌+◌, ◌<◌, ◌≤◌, [], IfOk, OnOk, length, vec_capacity, vec_len};
ghost use Rattle.df_rules.specs.Start.{rows};
ghost use Rattle.df_unit.specs.Rows.{reply};
ghost use Rattle.df_unit.specs.declared.call.Call.TheVariants.{Instantiate};
ghost use Rattle.df_unit.specs.declared.entry.Effect.{Effect};
ghost use Rattle.df_unit.specs.declared.reply.Reply.{Reply};
ghost use Rattle.df_tables.specs.Births.{IsOfChild, beside_of, child_row};
ghost use Rattle.df_tables.specs.Hand.{IsAnsweredAt, modify};
ghost use Rattle.df_tables.specs.Table.{moved_row};

use crate::line::Line;
use crate::units::Unit;
use df_label::{Label, Privileges, TagSet};
use df_local::Local;
use df_memory::NoMemory;
use df_roll::Roll;
use df_spawn::{ChildLabels, SpawnRefused, child_labels};
use df_unit::UnitName;
use std::alloc::Global;

/// The labels and the privileges of a child that its maker may make.
fn labels_of_child(
    maker: &Local,
    number: u32,
    s: &TagSet,
    privileges: &Privileges,
) -> Result<ChildLabels, NoMemory>
    requires { reply maker.now.unit maker.now.own [] (Instantiate s.now privileges.now)
        ≡ Reply.Unit number }
    ensures { IfOk result (IsOfChild maker.now s.now privileges.now) }
{
    let (input, output) = (maker.input(), maker.output());
    match child_labels(input, output, maker.held(), s, privileges) {
        Ok(labels) => Ok(labels),
        Err(SpawnRefused::NoMemory) => Err(NoMemory),
        Err(SpawnRefused::Lacks(_)) => unreachable!(),
    }
}

/// The row of the child of this number, as its maker makes it.
pub fn child_of(
    alloc: Global,
    maker: &Local,
    number: u32,
    s: &TagSet,
    privileges: &Privileges,
) -> Result<Unit, NoMemory>
    requires { reply maker.now.unit maker.now.own [] (Instantiate s.now privileges.now)
        ≡ Reply.Unit number }
    ensures { IfOk result (λ u. u ≡ child_row maker.now number s.now privileges.now) }
{
    let labels = labels_of_child(maker, number, s, privileges)?;
    let local = maker.of_child(number, labels.input, labels.output, labels.held)?;
    Ok(Unit {
        local,
        line: Line::new(alloc),
    })
}

/// What one more row needs beside it: the label at which its unit reads, and its name.
#[derive(Drop)]
pub struct Beside {
    pub label: Label,
    pub name: UnitName,
}

/// A row that is about to come, with what it needs beside it.
#[derive(Drop)]
pub struct Newborn {
    pub row: Unit,
    pub beside: Beside,
}

/// What a row needs beside it.
pub fn beside_of(born: &Unit) -> Result<Beside, NoMemory>
    ensures { IfOk result (λ b. b ≡ beside_of born.now) }
{
    let label = born.local.input().copy()?;
    let name = born.local.name().copy()?;
    Ok(Beside { label, name })
}

/// Makes room for so many more rows, with their labels and seats.
pub fn make_room(
    rows: &mut Vec<Unit>,
    labels: &mut Vec<Label>,
    roll: &mut Roll,
    n: usize,
) -> Result<(), NoMemory>
    ensures room { OnOk result (vec_len rows.new + n ≤ vec_capacity rows.new) }
    ensures label_room { OnOk result (vec_len labels.new + n ≤ vec_capacity labels.new) }
    ensures seat_room { OnOk result (n ≤ roll.new.room) }
    ensures rows { rows.new.items ≡ rows.old.items }
    ensures labels { labels.new.items ≡ labels.old.items }
    ensures seats { roll.new.seats ≡ roll.old.seats }
{
    if n == 0 {
        return Ok(());
    }
    rows.reserve(n)?;
    labels.reserve(n)?;
    roll.reserve(n)
}

/// Counts a child in the own state of the unit at a place. Takes no memory.
pub fn count_child(
    units: &mut [Unit],
    place: usize,
    number: u32,
    s: &TagSet,
    privileges: &Privileges,
)
    requires within { place < length units.old }
    requires right { IsAnsweredAt place (Instantiate s.now privileges.now) (Reply.Unit number)
        Effect.Nothing units.old }
    ensures { units.new ≡ modify place (moved_row rows (Instantiate s.now privileges.now)
        (Reply.Unit number) Effect.Nothing) units.old }
{
    units[place].local.count_unit();
}
