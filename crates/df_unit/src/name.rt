ghost use Rattle.std.specs.Prelude.{◌≡◌, ◌↔◌, IsTrue, IfOk, OnOk, OnErr, Some, refl};
ghost use Rattle.std.specs.Cmp.{partial_equiv_from_equiv};
ghost use Rattle.df_unit.specs.Name.{same};
ghost use Rattle.df_unit.specs.UnitOrder.{unit_cmp};
ghost use Rattle.df_unit.specs.UnitOrderLaws.{same_equiv, unit_cmp_po, unit_cmp_ties, unit_cmp_total};

use crate::Path;
use df_label::TagSet;
use df_memory::NoMemory;
use std::cmp::Ordering;

/// A unit's name. A plain unit is named by its path. The instance of a managed subscription is
/// named by its owner's path, the subscription's number, and the confidentiality tags of its
/// contamination.
#[derive(Debug, Drop)]
pub enum UnitName {
    Root(Path),
    Managed { owner: Path, sub: u32, s: TagSet },
}

/// An event's name: the unit that made it, and that unit's number for it.
#[derive(Debug, Drop)]
pub struct EventName {
    pub unit: UnitName,
    pub number: u32,
}

impl UnitName {
    pub fn copy(&self) -> Result<UnitName, NoMemory>
        ensures { IfOk result (λ u. u ≡ self.now) }
    {
        match self {
            UnitName::Root(path) => Ok(UnitName::Root(path.copy()?)),
            UnitName::Managed { owner, sub, s } => {
                let owner = owner.copy()?;
                let s = s.copy()?;
                Ok(UnitName::Managed {
                    owner,
                    sub: *sub,
                    s,
                })
            }
        }
    }

    /// Becomes a copy of the other. The path of a plain unit is copied into the one that there is.
    pub fn copy_from(&mut self, other: &UnitName) -> Result<(), NoMemory>
        ensures copied { OnOk result (self.new ≡ other.now) }
        ensures unchanged { OnErr result (self.new ≡ self.old) }
    {
        match other {
            UnitName::Root(path) => match self {
                UnitName::Root(own) => own.copy_from(path),
                UnitName::Managed { .. } => self.become_copy(other),
            },
            UnitName::Managed { .. } => self.become_copy(other),
        }
    }

    #[inline(never)]
    fn become_copy(&mut self, other: &UnitName) -> Result<(), NoMemory>
        ensures copied { OnOk result (self.new ≡ other.now) }
        ensures unchanged { OnErr result (self.new ≡ self.old) }
    {
        *self = other.copy()?;
        Ok(())
    }

    /// Whether the two names are equal.
    #[tactic(auto, using(crate::proofs::SameFacts::same_name_decides))]
    pub fn same(&self, other: &UnitName) -> bool
        ensures test { result ≡ same self.now other.now }
        ensures exact { IsTrue result ↔ (self.now ≡ other.now) }
    {
        match (self, other) {
            (UnitName::Root(a), UnitName::Root(b)) => a == b,
            (
                UnitName::Managed { owner, sub, s },
                UnitName::Managed {
                    owner: other_owner,
                    sub: other_sub,
                    s: other_s,
                },
            ) => owner == other_owner && *sub == *other_sub && *s == *other_s,
            _ => false,
        }
    }
}

impl PartialEq for UnitName {
    ghost eq = { same };

    ghost laws = { partial_equiv_from_equiv same_equiv };

    fn eq(&self, other: &UnitName) -> bool {
        self.same(other)
    }
}

impl Eq for UnitName {
    ghost laws = { same_equiv };
}

impl PartialOrd for UnitName {
    ghost partial_cmp = { λ a b. Some (unit_cmp a b) };

    ghost laws = { unit_cmp_po };

    fn partial_cmp(&self, other: &UnitName) -> Option<Ordering> {
        Some(self.cmp(other))
    }
}

/// Roots and the units that units made come first, by path. Instances follow, by owner, the
/// subscription's number and tags.
impl Ord for UnitName {
    ghost cmp = { unit_cmp };

    ghost total = { unit_cmp_total };

    ghost matches_partial_cmp = { λ a b. refl };

    ghost matches_eq = { unit_cmp_ties };

    fn cmp(&self, other: &UnitName) -> Ordering {
        match (self, other) {
            (UnitName::Root(a), UnitName::Root(b)) => a.cmp(b),
            (UnitName::Root(_), UnitName::Managed { .. }) => Ordering::Less,
            (UnitName::Managed { .. }, UnitName::Root(_)) => Ordering::Greater,
            (
                UnitName::Managed { owner, sub, s },
                UnitName::Managed {
                    owner: other_owner,
                    sub: other_sub,
                    s: other_s,
                },
            ) => owner
                .cmp(other_owner)
                .then(sub.cmp(other_sub).then(s.cmp(other_s))),
        }
    }
}

impl EventName {
    ghost use Rattle.df_unit.specs.Name.{same_event};

    pub fn copy(&self) -> Result<EventName, NoMemory>
        ensures { IfOk result (λ e. e ≡ self.now) }
    {
        Ok(EventName {
            unit: self.unit.copy()?,
            number: self.number,
        })
    }

    /// Whether the two names are equal.
    #[tactic(auto, using(crate::proofs::SameFacts::same_event_decides))]
    pub fn same(&self, other: &EventName) -> bool
        ensures test { result ≡ same_event self.now other.now }
        ensures exact { IsTrue result ↔ (self.now ≡ other.now) }
    {
        self.number == other.number && self.unit.same(&other.unit)
    }
}
