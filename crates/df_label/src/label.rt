//! Labels, and where information may flow.
ghost use Rattle.std.specs.Prelude.{◌≡◌, IsTrue, ◌↔◌, IfOk};
ghost use Rattle.df_label.specs.Label.{flows_to, join, IsCanonical};

use crate::TagSet;
use df_memory::NoMemory;

/// A label: the secrets that a reader must be cleared for, and the origins that vouch.
#[derive(Debug, Drop, PartialEq, Eq, Hash)]
pub struct Label {
    /// Confidentiality, which sticks: a join has the tags of either.
    pub s: TagSet,
    /// Integrity, which is fragile: a join has the tags of both.
    pub i: TagSet,
}

impl Label {
    /// Whether what bears this label may be seen at the other.
    pub fn flows_to(&self, to: &Label) -> bool
        ensures { result ≡ flows_to self.now to.now }
    {
        self.s.is_subset(&to.s) && to.i.is_subset(&self.i)
    }

    /// The least label to which both flow.
    pub fn join(&self, other: &Label) -> Result<Label, NoMemory>
        ensures { IfOk result (λ l. l ≡ join self.now other.now) }
    {
        let s = self.s.union(&other.s)?;
        let i = self.i.meet(&other.i)?;
        Ok(Label { s, i })
    }

    /// An equal label, with no allocation.
    pub fn copy(&self) -> Result<Label, NoMemory>
        ensures value { IfOk result (λ l. l ≡ self.now) }
        ensures canonical { IfOk result IsCanonical }
    {
        let s = self.s.copy()?;
        let i = self.i.copy()?;
        Ok(Label { s, i })
    }

    pub fn same(&self, other: &Label) -> bool
        ensures { IsTrue result ↔ self.now ≡ other.now }
    {
        self.s.same(&other.s) && self.i.same(&other.i)
    }
}
