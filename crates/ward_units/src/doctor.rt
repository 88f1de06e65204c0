//! The doctor: it reads what the ward tells, and marks what it has read.

ghost use Rattle.std.specs.Prelude.{◌≡◌, ◌↔◌, IfOk, IsTrue, OnErr};
ghost use Rattle.df_brain.specs.Brain.{last_of, want_of};

use crate::new_part::NewPart;
use crate::wishes::{reading, subscribing};
use df_brain::{Last, Want};
use df_filter::Filter;
use df_memory::NoMemory;
use df_unit::{Call, Reply};

/// Which call of the doctor is out.
#[derive(Clone, Copy, Debug, PartialEq, Eq)]
pub(crate) enum DoctorStage {
    Fresh,
    Subscribes,
    Waits,
    ReadsBed { h: u32 },
    ReadsDiagnosis { h: u32 },
    Marks { h: u32 },
    Releases { h: u32 },
    /// There was no diagnosis to it, or a reply came that isn't foreseen.
    Drops { h: u32 },
}

/// A doctor, which adds a mark to each event whose diagnosis it has read.
#[derive(Drop)]
pub struct Doctor {
    filter: Filter,
    mark: NewPart,
    stage: DoctorStage,
}

impl Doctor {
    ghost use Rattle.ward_units.specs.Doctor.{begins, next, stage_after, wanted_at};

    /// A doctor that asks for these events.
    pub fn new(filter: Filter, mark: NewPart) -> Doctor
        ensures { result ≡ begins filter mark }
    {
        Doctor {
            filter,
            mark,
            stage: DoctorStage::Fresh,
        }
    }

    /// What follows the reply to the call that is out.
    fn stage_after(&self, last: &Last) -> DoctorStage
        ensures { result ≡ stage_after self.now.stage (last_of last.now) }
    {
        let Last::Reply(reply) = last else {
            return DoctorStage::Subscribes;
        };
        match (self.stage, reply) {
            (DoctorStage::Waits, Reply::Event { h, .. }) => DoctorStage::ReadsBed { h: *h },
            (DoctorStage::ReadsBed { h }, _) => DoctorStage::ReadsDiagnosis { h },
            (DoctorStage::ReadsDiagnosis { h }, Reply::Parts(_)) => DoctorStage::Marks { h },
            (DoctorStage::ReadsDiagnosis { h }, _) => DoctorStage::Drops { h },
            (DoctorStage::Marks { h }, Reply::Ok) => DoctorStage::Releases { h },
            (DoctorStage::Marks { h }, _) => DoctorStage::Drops { h },
            (DoctorStage::Releases { .. }, Reply::Ok) => DoctorStage::Waits,
            (DoctorStage::Releases { h }, _) => DoctorStage::Drops { h },
            _ => DoctorStage::Waits,
        }
    }

    fn want_at(&self, stage: DoctorStage) -> Result<Want, NoMemory>
        ensures { IfOk result (λ w. want_of w ≡ wanted_at self.now stage) }
    {
        match stage {
            DoctorStage::Fresh | DoctorStage::Waits => Ok(Want::Wait),
            DoctorStage::Subscribes => subscribing(&self.filter),
            DoctorStage::ReadsBed { h } => Ok(reading(h, "bed")),
            DoctorStage::ReadsDiagnosis { h } => Ok(reading(h, "diagnosis")),
            DoctorStage::Marks { h } => self.mark.adding(h),
            DoctorStage::Releases { h } => Ok(Want::Call(Call::Release { h })),
            DoctorStage::Drops { h } => Ok(Want::Call(Call::DropEvent { h })),
        }
    }

    pub(crate) fn next(&mut self, last: &Last) -> Result<Want, NoMemory>
        ensures wants { IfOk result (λ w.
            (want_of w, self.new) ≡ next self.old (last_of last.now)) }
        ensures unchanged { OnErr result (self.new ≡ self.old) }
    {
        let stage = self.stage_after(last);
        let want = self.want_at(stage)?;
        self.stage = stage;
        Ok(want)
    }

    pub(crate) fn copy(&self) -> Result<Doctor, NoMemory>
        ensures { IfOk result (λ doctor. doctor ≡ self.now) }
    {
        let filter = self.filter.copy()?;
        Ok(Doctor {
            filter,
            mark: self.mark.copy()?,
            stage: self.stage,
        })
    }

    pub(crate) fn same(&self, other: &Doctor) -> bool
        ensures { IsTrue result ↔ (self.now ≡ other.now) }
    {
        self.stage == other.stage && self.filter.same(&other.filter) && self.mark.same(&other.mark)
    }
}
