//! The calls that create an event or drop one, made where they are accepted: what they are told is
//! a number at most.

ghost use Rattle.std.specs.Prelude.{◌≡◌, IfOk, OnErr};
ghost use Rattle.df_local.specs.Brief.{MakesBriefly};
ghost use Rattle.df_local.specs.declared.brief.Brief.TheVariants.{Create, Drop};

use crate::Local;
use crate::limits::MOST_NUMBERS;
use df_memory::NoMemory;

/// A call that creates an event or drops one.
#[derive(Clone, Copy, Debug, PartialEq, Eq)]
pub enum Brief {
    Create,
    Drop { h: u32 },
}

/// What such a call is told where it is accepted: the handle of an event that is created, and that
/// one is dropped.
#[derive(Clone, Copy, Debug, PartialEq, Eq)]
pub enum Accepted {
    Handle(u32),
    Ok,
}

impl Local {
    /// Makes such a call where it is accepted. Where it is refused, None, and nothing is done:
    /// `make_alone` tells the refusal.
    pub fn make_brief(&mut self, brief: Brief) -> Result<Option<Accepted>, NoMemory>
        ensures made { IfOk result (λ accepted. MakesBriefly brief accepted self.old self.new) }
        ensures unchanged { OnErr result (self.new ≡ self.old) }
    {
        match brief {
            Brief::Create => self.begin_draft(),
            Brief::Drop { h } => Ok(self.drop_open(h)),
        }
    }

    fn begin_draft(&mut self) -> Result<Option<Accepted>, NoMemory>
        ensures made { IfOk result (λ accepted. MakesBriefly Create accepted self.old self.new) }
        ensures unchanged { OnErr result (self.new ≡ self.old) }
    {
        if self.handles.is_full() || self.events >= MOST_NUMBERS {
            return Ok(None);
        }
        let h = self.handles.least_free();
        match self.put_empty() {
            Ok(()) => Ok(Some(Accepted::Handle(h))),
            Err(refused) => Err(refused),
        }
    }

    fn drop_open(&mut self, h: u32) -> Option<Accepted>
        ensures { MakesBriefly (Drop h) result self.old self.new }
    {
        if self.handles.get(h).is_none() {
            return None;
        }
        self.shut(h);
        Some(Accepted::Ok)
    }
}
