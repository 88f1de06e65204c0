//! The ward: it publishes one event of two parts, of which it lets one out.

ghost use Rattle.std.specs.Prelude.{◌≡◌, ◌↔◌, IfOk, IsTrue, OnErr};
ghost use Rattle.df_brain.specs.Brain.{last_of, want_of};

use crate::new_part::NewPart;
use crate::wishes::letting_out;
use df_brain::{Last, Want};
use df_label::Tag;
use df_memory::NoMemory;
use df_unit::{Call, Reply};

/// Which call of the ward is out.
#[derive(Clone, Copy, Debug, PartialEq, Eq)]
pub(crate) enum WardStage {
    Fresh,
    LetsOut,
    Creates,
    AddsBed { h: u32 },
    AddsDiagnosis { h: u32 },
    Publishes { h: u32 },
    /// Nothing is left to do, or a reply came that isn't foreseen.
    Rests,
}

/// A ward, which takes a tag out of what it tells, and then tells in one event which bed is taken
/// and why.
#[derive(Drop)]
pub struct Ward {
    tag: Tag,
    bed: NewPart,
    diagnosis: NewPart,
    stage: WardStage,
}

impl Ward {
    ghost use Rattle.ward_units.specs.Ward.{begins, next, stage_after, wanted_at};

    /// A ward at a label with this tag. Without the privilege to take the tag out, it rests.
    pub fn new(tag: Tag, bed: NewPart, diagnosis: NewPart) -> Ward
        ensures { result ≡ begins tag bed diagnosis }
    {
        Ward {
            tag,
            bed,
            diagnosis,
            stage: WardStage::Fresh,
        }
    }

    /// What follows the reply to the call that is out.
    fn stage_after(&self, last: &Last) -> WardStage
        ensures { result ≡ stage_after self.now.stage (last_of last.now) }
    {
        match (self.stage, last) {
            (_, Last::Start) => WardStage::LetsOut,
            (WardStage::LetsOut, Last::Reply(Reply::Ok)) => WardStage::Creates,
            (WardStage::Creates, Last::Reply(Reply::Handle(h))) => WardStage::AddsBed { h: *h },
            (WardStage::AddsBed { h }, Last::Reply(Reply::Ok)) => WardStage::AddsDiagnosis { h },
            (WardStage::AddsDiagnosis { h }, Last::Reply(Reply::Ok)) => WardStage::Publishes { h },
            _ => WardStage::Rests,
        }
    }

    fn want_at(&self, stage: WardStage) -> Result<Want, NoMemory>
        ensures { IfOk result (λ w. want_of w ≡ wanted_at self.now stage) }
    {
        match stage {
            WardStage::LetsOut => letting_out(&self.tag),
            WardStage::Creates => Ok(Want::Call(Call::CreateEvent)),
            WardStage::AddsBed { h } => self.bed.adding(h),
            WardStage::AddsDiagnosis { h } => self.diagnosis.adding(h),
            WardStage::Publishes { h } => Ok(Want::Call(Call::Publish { h })),
            WardStage::Fresh | WardStage::Rests => Ok(Want::Wait),
        }
    }

    pub(crate) fn next(&mut self, last: &Last) -> Result<Want, NoMemory>
        ensures wants { IfOk result (λ w.
            (want_of w, self.new) ≡ next self.old (last_of last.now)) }
        ensures unchanged { OnErr result (self.new ≡ self.old) }
    {
        let stage = self.stage_after(last);
        let want = self.want_at(stage)?;
        self.stage = stage;
        Ok(want)
    }

    pub(crate) fn copy(&self) -> Result<Ward, NoMemory>
        ensures { IfOk result (λ ward. ward ≡ self.now) }
    {
        Ok(Ward {
            tag: self.tag.copy()?,
            bed: self.bed.copy()?,
            diagnosis: self.diagnosis.copy()?,
            stage: self.stage,
        })
    }

    pub(crate) fn same(&self, other: &Ward) -> bool
        ensures { IsTrue result ↔ (self.now ≡ other.now) }
    {
        self.stage == other.stage
            && self.tag.same(&other.tag)
            && self.bed.same(&other.bed)
            && self.diagnosis.same(&other.diagnosis)
    }
}
