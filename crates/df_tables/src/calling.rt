//! The instances to which a commit is handed.

ghost use Rattle.std.specs.Prelude.{◌≡◌, ◌<◌, [], ◌∷◌, ◌++◌, true, length, slice_get, IfOk, OnOk};
ghost use Rattle.std.specs.List.{All};
ghost use Rattle.df_label.specs.TagSet.{is_subset};
ghost use Rattle.df_instances.specs.Chosen.{HasBase};
ghost use Rattle.df_local.specs.Births.{IsAccounted, record_of};
ghost use Rattle.df_managed.specs.Contaminations.{EndsWith};
ghost use Rattle.df_unit.specs.declared.name.UnitName.TheVariants.{Managed as InstanceOf};
ghost use Rattle.df_tables.specs.Births.{IsNewborn, rows_in};
ghost use Rattle.df_tables.specs.Board.{IsBoard};
ghost use Rattle.df_tables.specs.Calls.{AreCalled, birth_of, born_instance, pair_of};
ghost use Rattle.df_tables.specs.Hand.{IsCalm, given_to};

use crate::births::{Newborn, beside_of};
use crate::board::Board;
use crate::handing::given_to;
use crate::line::Line;
use crate::units::Unit;
use df_instances::{Instance, ManagedSubscription};
use df_label::{Label, TagSet};
use df_local::Local;
use df_memory::NoMemory;
use df_part::Contents;
use df_unit::{Commit, EventName, UnitName};
use std::alloc::Global;

/// The instances to which a commit is handed.
#[derive(Drop)]
pub(crate) struct Called {
    /// Those that have a row, each by its place and the number of its subscription.
    pub pairs: Vec<(usize, u32)>,
    /// The rows of those that have none, ready to come.
    pub born: Vec<Newborn>,
}

/// The name of the instance of contamination `s` of a subscription.
pub(crate) fn name_of(subscription: &ManagedSubscription, s: &TagSet) -> Result<UnitName, NoMemory>
    ensures { IfOk result (λ name.
        name ≡ InstanceOf subscription.now.owner subscription.now.sub s.now) }
{
    let owner = subscription.owner.copy()?;
    let s = s.copy()?;
    Ok(UnitName::Managed {
        owner,
        sub: subscription.sub,
        s,
    })
}

/// What is left to an instance that reads at a label, and comes to exist with an event.
fn first_line(
    alloc: Global,
    event: &EventName,
    after: &Contents,
    at: &Label,
    sub: u32,
) -> Result<Line, NoMemory>
    ensures { IfOk result (λ line. line ≡ record {
      left = given_to event.now after.now at.now (0, sub) ∷ [];
      staged = [];
    }) }
{
    let given = given_to(event, after, at, (0, sub))?;
    let mut line = Line::new(alloc);
    line.stage(given)?;
    line.settle();
    Ok(line)
}

/// The row of the instance of contamination `s` of a subscription, with an event as its first
/// delivery.
pub(crate) fn born(
    alloc: Global,
    subscription: &ManagedSubscription,
    s: &TagSet,
    event: &EventName,
    after: &Contents,
) -> Result<Unit, NoMemory>
    requires owned { 0 < length subscription.now.owner }
    requires accounted { IsAccounted (record_of subscription.now.fixed) }
    requires base { is_subset subscription.now.fixed.base s.now ≡ true }
    ensures { IfOk result (λ u. u ≡ born_instance event.now after.now subscription.now s.now) }
{
    let (owner, sub) = (subscription.owner.as_slice(), subscription.sub);
    let local = Local::of_instance(alloc, owner, sub, &subscription.fixed, s)?;
    let line = first_line(alloc, event, after, local.input(), sub)?;
    Ok(Unit { local, line })
}

/// Adds a row that is about to come.
fn add_row(to: &mut Vec<Newborn>, row: Unit) -> Result<(), NoMemory>
    requires calm { IsCalm row }
    requires newborn { All IsNewborn to.old.items }
    ensures rows { OnOk result (rows_in to.new.items ≡ rows_in to.old.items ++ row ∷ []) }
    ensures newborn { OnOk result (All IsNewborn to.new.items) }
{
    let beside = beside_of(&row)?;
    to.push(Newborn { row, beside })?;
    Ok(())
}

impl Board {
    /// Makes the row of the instance of contamination `s` of a subscription, which has none, with
    /// an event as its first delivery.
    fn add_born(
        &self,
        subscription: &ManagedSubscription,
        s: &TagSet,
        event: &EventName,
        after: &Contents,
        to: &mut Vec<Newborn>,
    ) -> Result<(), NoMemory>
        requires owned { 0 < length subscription.now.owner }
        requires accounted { IsAccounted (record_of subscription.now.fixed) }
        requires base { is_subset subscription.now.fixed.base s.now ≡ true }
        requires newborn { All IsNewborn to.old.items }
        ensures newborn { OnOk result (All IsNewborn to.new.items) }
        ensures rows { OnOk result (rows_in to.new.items ≡ rows_in to.old.items
            ++ born_instance event.now after.now subscription.now s.now ∷ []) }
    {
        let row = born(self.alloc, subscription, s, event, after)?;
        add_row(to, row)
    }

    /// Calls an instance, which is handed the event unless it was before.
    fn call_one(
        &self,
        event: usize,
        commit: &Commit,
        after: &Contents,
        instance: &Instance,
        called: &mut Called,
    ) -> Result<(), NoMemory>
        requires board { IsBoard self.now }
        requires based { HasBase self.now.managed instance.now }
        requires newborn { All IsNewborn called.old.born.items }
        ensures newborn { OnOk result (All IsNewborn called.new.born.items) }
        ensures pairs { OnOk result (called.new.pairs.items ≡ called.old.pairs.items
            ++ pair_of self.now.rows.items self.now.marks.handed event
            (slice_get self.now.managed instance.now.place) instance.now.s) }
        ensures born { OnOk result (rows_in called.new.born.items ≡ rows_in called.old.born.items
            ++ birth_of self.now.rows.items commit.now.event after.now
            (slice_get self.now.managed instance.now.place) instance.now.s) }
    {
        let subscription = self.managed.get(instance.place);
        let name = name_of(subscription, &instance.s)?;
        match self.roll.place(&name) {
            None => {
                let (s, event) = (&instance.s, &commit.event);
                self.add_born(subscription, s, event, after, &mut called.born)?;
            }
            Some(place) => {
                if !self.marks.was_handed(event, place) {
                    called.pairs.push((place, subscription.sub))?;
                }
            }
        }
        Ok(())
    }

    /// The instances to which a commit is handed, by the place of its event and the parts after it.
    pub(crate) fn called(
        &self,
        event: usize,
        commit: &Commit,
        after: &Contents,
    ) -> Result<Called, NoMemory>
        requires board { IsBoard self.now }
        requires added { EndsWith commit.now.edit.1 after.now }
        ensures { IfOk result (AreCalled self.now.rows.items self.now.managed
            self.now.marks.handed commit.now event after.now) }
    {
        let instances = self.managed.chosen(after, &commit.edit)?;
        let mut called = Called {
            pairs: Vec::new(self.alloc),
            born: Vec::new(self.alloc),
        };
        for instance in instances.as_slice() {
            self.call_one(event, commit, after, instance, &mut called)?;
        }
        Ok(called)
    }
}
