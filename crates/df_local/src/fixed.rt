//! What a managed subscription keeps of its owner, and the instances that begin by it.

ghost use Rattle.std.specs.Prelude.{◌≡◌, ◌<◌, IfOk, length, true};
ghost use Rattle.df_label.specs.TagSet.{is_subset, meet, union};
ghost use Rattle.df_unit.specs.Beginnings.{fixed_of};
ghost use Rattle.df_unit.specs.declared.name.UnitName.TheVariants.{Managed};
ghost use Rattle.df_local.specs.Births.{IsAccounted, instance_at, record_of};

use crate::Local;
use crate::laws::tags_are_accounted_for;
use crate::local::begun;
use crate::standing::{Reading, Writing};
use df_filter::Filter;
use df_label::{Label, TagSet};
use df_memory::NoMemory;
use df_priv::Held;
use df_unit::{Path, UnitName};
use std::alloc::Global;

/// What a managed subscription keeps of its moment. Nothing changes it later.
#[derive(Drop)]
pub struct Fixed {
    pub filter: Filter,
    /// The owner's input confidentiality with that of its output.
    pub base: TagSet,
    pub input_integrity: TagSet,
    /// The integrity that both labels of the owner have.
    pub output_integrity: TagSet,
    pub held: Held,
    pub contamination: Label,
    pub dropped: TagSet,
    pub endorsed: TagSet,
}

/// What it keeps of the labels at which the owner reads and writes.
#[derive(Drop)]
struct Readable {
    base: TagSet,
    input_integrity: TagSet,
    output_integrity: TagSet,
}

/// What it keeps of all that the owner read and set aside.
#[derive(Drop)]
struct Behind {
    contamination: Label,
    dropped: TagSet,
    endorsed: TagSet,
}

impl Local {
    /// What a managed subscription with this filter keeps of the unit.
    pub fn fixed(&self, filter: &Filter) -> Result<Fixed, NoMemory>
        ensures record { IfOk result (λ f.
            record_of f ≡ fixed_of self.now.own filter.now) }
        ensures accounted { IfOk result (λ f. IsAccounted (record_of f)) }
    {
        let fixed = self.fixed_with(filter)?;
        tags_are_accounted_for(self);
        Ok(fixed)
    }

    fn fixed_with(&self, filter: &Filter) -> Result<Fixed, NoMemory>
        ensures { IfOk result (λ f. record_of f ≡ fixed_of self.now.own filter.now) }
    {
        let filter = filter.copy()?;
        let readable = self.readable()?;
        let behind = self.behind()?;
        let held = self.held.copy()?;
        Ok(Fixed {
            filter,
            base: readable.base,
            input_integrity: readable.input_integrity,
            output_integrity: readable.output_integrity,
            held,
            contamination: behind.contamination,
            dropped: behind.dropped,
            endorsed: behind.endorsed,
        })
    }

    fn readable(&self) -> Result<Readable, NoMemory>
        ensures base { IfOk result (λ r. r.base
            ≡ union self.now.own.input.s self.now.own.output.s) }
        ensures input_integrity { IfOk result (λ r. r.input_integrity ≡ self.now.own.input.i) }
        ensures output_integrity { IfOk result (λ r. r.output_integrity
            ≡ meet self.now.own.input.i self.now.own.output.i) }
    {
        let (input, output) = (self.input(), self.output());
        let base = input.s.union(&output.s)?;
        let input_integrity = input.i.copy()?;
        let output_integrity = input.i.meet(&output.i)?;
        Ok(Readable {
            base,
            input_integrity,
            output_integrity,
        })
    }

    fn behind(&self) -> Result<Behind, NoMemory>
        ensures contamination { IfOk result (λ b. b.contamination ≡ self.now.own.contamination) }
        ensures dropped { IfOk result (λ b. b.dropped ≡ self.now.own.dropped) }
        ensures endorsed { IfOk result (λ b. b.endorsed ≡ self.now.own.endorsed) }
    {
        let contamination = self.contamination().copy()?;
        let dropped = self.dropped().copy()?;
        let endorsed = self.endorsed().copy()?;
        Ok(Behind {
            contamination,
            dropped,
            endorsed,
        })
    }

    /// The instance of contamination `s` of a managed subscription, as it begins.
    pub fn of_instance(
        alloc: Global,
        owner: &[u32],
        sub: u32,
        fixed: &Fixed,
        s: &TagSet,
    ) -> Result<Local, NoMemory>
        requires path { 0 < length owner.now }
        requires base { is_subset fixed.now.base s.now ≡ true }
        requires accounted { IsAccounted (record_of fixed.now) }
        ensures { IfOk result (λ l. l ≡ instance_at owner.now sub (record_of fixed.now) s.now) }
    {
        let name = instance_name(alloc, owner, sub, s)?;
        let input = label_of(s, &fixed.input_integrity)?;
        let reading = Reading::behind(&fixed.contamination, input)?;
        let output = label_of(s, &fixed.output_integrity)?;
        let writing = Writing::behind(output, &fixed.dropped, &fixed.endorsed)?;
        Ok(begun(alloc, name, reading, writing, fixed.held.copy()?))
    }
}

/// The name of an instance of contamination `s`.
fn instance_name(alloc: Global, owner: &[u32], sub: u32, s: &TagSet) -> Result<UnitName, NoMemory>
    requires { 0 < length owner.now }
    ensures { IfOk result (λ name. name ≡ Managed owner.now sub s.now) }
{
    let owner = Path::new(Vec::from_slice(alloc, owner)?);
    let s = s.copy()?;
    Ok(UnitName::Managed { owner, sub, s })
}

fn label_of(s: &TagSet, i: &TagSet) -> Result<Label, NoMemory>
    ensures { IfOk result (λ l. l ≡ record { s = s.now; i = i.now }) }
{
    let s = s.copy()?;
    let i = i.copy()?;
    Ok(Label { s, i })
}
