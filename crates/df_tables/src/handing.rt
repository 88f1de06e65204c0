//! Handing an event to its receivers, and to no other row.

ghost use Rattle.std.specs.Prelude.{◌≡◌, ◌<◌, OnOk, OnErr, IfOk, List, length, map};
ghost use Rattle.std.specs.List.{All};
ghost use Rattle.df_unit.specs.declared.commit.Given.{Given};
ghost use Rattle.df_tables.specs.Hand.{IsCalm, IsNews, each, given_to, quiet_row, settled_row, staged_row, with_news};
ghost use Rattle.df_tables.specs.declared.units.Unit.{Unit};

use crate::units::Unit;
use df_label::Label;
use df_memory::NoMemory;
use df_part::Contents;
use df_unit::{EventName, Given};

/// What a commit brings: the event, its parts after the commit, and to whom it is to be handed.
#[derive(Drop)]
pub(crate) struct News<'a> {
    pub event: &'a EventName,
    pub after: &'a Contents,
    pub receivers: &'a [(usize, u32)],
}

/// The delivery of an event to a receiver who reads at a label.
#[inline(always)]
pub(crate) fn given_to(
    event: &EventName,
    after: &Contents,
    at: &Label,
    receiver: (usize, u32),
) -> Result<Given, NoMemory>
    ensures { IfOk result (λ d. d ≡ given_to event.now after.now at.now receiver) }
{
    Ok(Given {
        event: event.copy()?,
        sub: receiver.1,
        parts: after.seen_at(at)?,
    })
}

/// Stages one delivery at a row.
fn stage_at(
    unit: &mut Unit,
    event: &EventName,
    after: &Contents,
    receiver: (usize, u32),
) -> Result<(), NoMemory>
    ensures ok { OnOk result (unit.new ≡ staged_row event.now after.now receiver unit.old) }
    ensures unchanged { OnErr result (unit.new ≡ unit.old) }
{
    let given = given_to(event, after, unit.local.input(), receiver)?;
    unit.line.stage(given)
}

/// Stages the event at each receiver's row. Where memory is wanting, only what is staged there is
/// another.
fn stage(
    units: &mut [Unit],
    receivers: &[(usize, u32)],
    event: &EventName,
    after: &Contents,
) -> Result<(), NoMemory>
    requires within { All (λ p. p.0 < length units.old) receivers.now }
    ensures ok { OnOk result (units.new
        ≡ each (staged_row event.now after.now) receivers.now units.old) }
    ensures quiet { OnErr result (each quiet_row receivers.now units.new
        ≡ each quiet_row receivers.now units.old) }
{
    for receiver in receivers {
        let unit = &mut units[receiver.0];
        stage_at(unit, event, after, *receiver)?;
    }
    Ok(())
}

/// Hands over what was staged at each receiver's row. Takes no memory.
fn settle(units: &mut [Unit], receivers: &[(usize, u32)])
    requires within { All (λ p. p.0 < length units.old) receivers.now }
    ensures { units.new ≡ each settled_row receivers.now units.old }
{
    for receiver in receivers {
        let unit = &mut units[receiver.0];
        unit.line.settle();
    }
}

/// Lets go what was staged at each receiver's row.
fn quiet(units: &mut [Unit], receivers: &[(usize, u32)])
    requires within { All (λ p. p.0 < length units.old) receivers.now }
    ensures { units.new ≡ each quiet_row receivers.now units.old }
{
    for receiver in receivers {
        let unit = &mut units[receiver.0];
        unit.line.quiet();
    }
}

/// Hands an event to its receivers. Where memory is wanting, the table is as before.
pub(crate) fn hand_out(units: &mut [Unit], news: &News<'_>) -> Result<(), NoMemory>
    requires receivers { All (λ p. p.0 < length units.old) news.now.receivers.now }
    requires calm { All IsCalm units.old }
    ensures ok { (given : Unit → List Given) → IsNews given news.now.event.now
        news.now.after.now news.now.receivers.now units.old →
        OnOk result (units.new ≡ map (with_news given) units.old) }
    ensures unchanged { OnErr result (units.new ≡ units.old) }
{
    let Ok(()) = stage(units, news.receivers, news.event, news.after) else {
        quiet(units, news.receivers);
        return Err(NoMemory);
    };
    settle(units, news.receivers);
    Ok(())
}
