//! The office: it asks for what the doctor asks for, and is told less.

ghost use Rattle.std.specs.Prelude.{◌≡◌, ◌↔◌, IfOk, IsTrue, OnErr};
ghost use Rattle.df_brain.specs.Brain.{last_of, want_of};

use crate::wishes::{reading, subscribing};
use df_brain::{Last, Want};
use df_filter::Filter;
use df_memory::NoMemory;
use df_unit::{Call, Reply};

/// Which call of the office is out.
#[derive(Clone, Copy, Debug, PartialEq, Eq)]
pub(crate) enum OfficeStage {
    Fresh,
    Subscribes,
    Waits,
    ReadsBed { h: u32 },
    ReadsDiagnosis { h: u32 },
    Drops { h: u32 },
}

/// An office, which reads of each event what it may.
#[derive(Drop)]
pub struct Office {
    filter: Filter,
    stage: OfficeStage,
}

impl Office {
    ghost use Rattle.ward_units.specs.Office.{begins, next, stage_after, wanted_at};

    /// An office that asks for these events.
    pub fn new(filter: Filter) -> Office
        ensures { result ≡ begins filter }
    {
        Office {
            filter,
            stage: OfficeStage::Fresh,
        }
    }

    /// What follows the reply to the call that is out.
    fn stage_after(&self, last: &Last) -> OfficeStage
        ensures { result ≡ stage_after self.now.stage (last_of last.now) }
    {
        let Last::Reply(reply) = last else {
            return OfficeStage::Subscribes;
        };
        match (self.stage, reply) {
            (OfficeStage::Waits, Reply::Event { h, .. }) => OfficeStage::ReadsBed { h: *h },
            (OfficeStage::ReadsBed { h }, _) => OfficeStage::ReadsDiagnosis { h },
            (OfficeStage::ReadsDiagnosis { h }, _) => OfficeStage::Drops { h },
            _ => OfficeStage::Waits,
        }
    }

    fn want_at(&self, stage: OfficeStage) -> Result<Want, NoMemory>
        ensures { IfOk result (λ w. want_of w ≡ wanted_at self.now stage) }
    {
        match stage {
            OfficeStage::Fresh | OfficeStage::Waits => Ok(Want::Wait),
            OfficeStage::Subscribes => subscribing(&self.filter),
            OfficeStage::ReadsBed { h } => Ok(reading(h, "bed")),
            OfficeStage::ReadsDiagnosis { h } => Ok(reading(h, "diagnosis")),
            OfficeStage::Drops { h } => Ok(Want::Call(Call::DropEvent { h })),
        }
    }

    pub(crate) fn next(&mut self, last: &Last) -> Result<Want, NoMemory>
        ensures wants { IfOk result (λ w.
            (want_of w, self.new) ≡ next self.old (last_of last.now)) }
        ensures unchanged { OnErr result (self.new ≡ self.old) }
    {
        let stage = self.stage_after(last);
        let want = self.want_at(stage)?;
        self.stage = stage;
        Ok(want)
    }

    pub(crate) fn copy(&self) -> Result<Office, NoMemory>
        ensures { IfOk result (λ office. office ≡ self.now) }
    {
        let filter = self.filter.copy()?;
        Ok(Office {
            filter,
            stage: self.stage,
        })
    }

    pub(crate) fn same(&self, other: &Office) -> bool
        ensures { IsTrue result ↔ (self.now ≡ other.now) }
    {
        self.stage == other.stage && self.filter.same(&other.filter)
    }
}
