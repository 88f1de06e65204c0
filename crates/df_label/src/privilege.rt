//! Privileges, each a right over one tag.
ghost use Rattle.std.specs.Prelude.{◌≡◌, IsTrue, ◌↔◌, IfOk, refl};
ghost use Rattle.std.specs.Ordering.{as_partial_cmp};
ghost use Rattle.std.specs.Cmp.{partial_equiv_from_equiv, eq_by_cmp_equiv, partial_order_from_total};
ghost use Rattle.df_label.specs.Privilege.{privilege_cmp, privilege_eq, privilege_cmp_total};

use crate::Tag;
use df_memory::NoMemory;
use std::cmp::Ordering;

/// What a privilege lets its holder do with its tag.
#[derive(Clone, Copy, Debug, PartialEq, Eq, PartialOrd, Ord, Hash)]
pub enum Right {
    /// Add the tag to a label of one's own.
    Plus,
    /// Take the tag out of a label of one's own.
    Minus,
    /// Pass on the two rights of adding.
    PlusAuth,
    /// Pass on the two rights of taking out.
    MinusAuth,
}

/// A right over a tag.
#[derive(Debug, Drop)]
pub struct Privilege {
    pub tag: Tag,
    pub right: Right,
}

impl Privilege {
    /// An equal privilege, with no allocation.
    pub fn copy(&self) -> Result<Privilege, NoMemory>
        ensures { IfOk result (λ p. p ≡ self.now) }
    {
        Ok(Privilege {
            tag: self.tag.copy()?,
            right: self.right,
        })
    }

    pub fn same(&self, other: &Privilege) -> bool
        ensures { IsTrue result ↔ self.now ≡ other.now }
    {
        self.right == other.right && self.tag.same(&other.tag)
    }
}

impl PartialEq for Privilege {
    ghost eq = { privilege_eq };

    ghost laws = { partial_equiv_from_equiv (eq_by_cmp_equiv privilege_cmp_total) };

    fn eq(&self, other: &Privilege) -> bool {
        self.cmp(other).is_eq()
    }
}

impl Eq for Privilege {
    ghost laws = { eq_by_cmp_equiv privilege_cmp_total };
}

impl PartialOrd for Privilege {
    ghost partial_cmp = { as_partial_cmp privilege_cmp };

    ghost laws = { partial_order_from_total privilege_cmp_total };

    fn partial_cmp(&self, other: &Privilege) -> Option<Ordering> {
        Some(self.cmp(other))
    }
}

/// By tag, then right.
impl Ord for Privilege {
    ghost cmp = { privilege_cmp };

    ghost total = { privilege_cmp_total };

    ghost matches_partial_cmp = { λ a b. refl };

    ghost matches_eq = { λ a b. refl };

    fn cmp(&self, other: &Privilege) -> Ordering {
        self.tag.cmp(&other.tag).then(self.right.cmp(&other.right))
    }
}
