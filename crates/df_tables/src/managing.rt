//! Managed subscriptions that units make.

ghost use Rattle.std.specs.Prelude.{◌≡◌, ◌<◌, false, length, OnErr, OnOk};
ghost use Rattle.df_rules.specs.Start.{rows};
ghost use Rattle.df_unit.specs.Rows.{is_instance};
ghost use Rattle.df_unit.specs.declared.call.Call.TheVariants.{SubscribeManaged};
ghost use Rattle.df_unit.specs.declared.entry.Effect.{Effect};
ghost use Rattle.df_unit.specs.declared.name.UnitName.TheVariants.{Root};
ghost use Rattle.df_unit.specs.declared.reply.Reply.TheVariants.{Sub};
ghost use Rattle.df_tables.specs.Births.{IsEnrolled, IsEnrolledBy};
ghost use Rattle.df_tables.specs.Hand.{IsAnsweredAt, modify};
ghost use Rattle.df_tables.specs.Table.{moved_row};

use crate::units::Unit;
use df_filter::Filter;
use df_instances::Managed;
use df_local::Local;
use df_memory::NoMemory;
use df_unit::{Path, UnitName};

/// The path of a plain unit.
fn path_of(local: &Local) -> &Path
    requires { is_instance local.now.unit ≡ false }
    ensures path { local.now.unit ≡ Root result.now }
    ensures some { 0 < length result.now }
{
    let UnitName::Root(path) = local.name() else {
        unreachable!()
    };
    let _numbers = path.as_slice();
    path
}

/// Counts a managed subscription in the own state of the unit at a place. Takes no memory.
fn count_at(units: &mut [Unit], place: usize, filter: &Filter, number: u32)
    requires within { place < length units.old }
    requires right { IsAnsweredAt place (SubscribeManaged filter.now) (Sub number) Effect.Nothing
        units.old }
    ensures { units.new ≡ modify place
        (moved_row rows (SubscribeManaged filter.now) (Sub number) Effect.Nothing) units.old }
{
    let unit = &mut units[place];
    let _reply = unit.local.count_sub();
}

/// Enrols the managed subscription of a plain unit.
fn enrol(local: &Local, managed: &mut Managed, filter: &Filter, number: u32) -> Result<(), NoMemory>
    requires { is_instance local.now.unit ≡ false }
    ensures ok { OnOk result (IsEnrolledBy local.now filter.now number managed.old managed.new) }
    ensures unchanged { OnErr result (managed.new ≡ managed.old) }
{
    let owner = path_of(local).copy()?;
    let fixed = local.fixed(filter)?;
    managed.enrol(owner, number, fixed)
}

/// Enrols the managed subscription that the unit at a place makes. Where memory is wanting, the
/// tables are as before.
pub fn subscribe_managed(
    units: &mut [Unit],
    managed: &mut Managed,
    place: usize,
    filter: &Filter,
    number: u32,
) -> Result<(), NoMemory>
    requires within { place < length units.old }
    requires right { IsAnsweredAt place (SubscribeManaged filter.now) (Sub number) Effect.Nothing
        units.old }
    ensures ok { OnOk result (units.new ≡ modify place
        (moved_row rows (SubscribeManaged filter.now) (Sub number) Effect.Nothing) units.old) }
    ensures enrolled { OnOk result (IsEnrolled place filter.now number units.old
        managed.old managed.new) }
    ensures unchanged { OnErr result (units.new ≡ units.old) }
    ensures as_before { OnErr result (managed.new ≡ managed.old) }
{
    enrol(&units[place].local, managed, filter, number)?;
    count_at(units, place, filter, number);
    Ok(())
}
