//! Tags, named by their maker and a number of the maker's own.
ghost use Rattle.std.specs.Prelude.{◌≡◌, IsTrue, ◌↔◌, ◌<◌, IfOk, Some, [], ◌∷◌, ◌++◌, length, nat_eq, refl};
ghost use Rattle.std.specs.Cmp.{partial_equiv_from_equiv};
ghost use Rattle.std.specs.Cmp.Lexicographic.{pointwise, nat_list_eq_equiv, nat_list_cmp_total, texts_po, texts_ties};
ghost use Rattle.std.specs.Cmp.Rules.{hashing};
ghost use Rattle.std.specs.Hash as fed;
ghost use Rattle.std.proofs.Common.{rules};
ghost use Rattle.df_label.specs.Tag.{tag_cmp, maker_of, number_of};
ghost use Rattle.df_label.specs.declared.tag.TheConstants.{INLINE};

use crate::compare_numbers;
use df_memory::NoMemory;
use std::alloc::Global;
use std::cmp::Ordering;
use std::hash::{Hash, Hasher};
use std::marker::Model;
use std::sync::Arc;

// How many numbers a tag keeps in itself.
const INLINE: usize = 6;

#[derive(Debug, Drop)]
enum Kept {
    Short([u32; INLINE], u8),
    Long(Arc<Vec<u32>>),
}

/// A tag. A contract sees it as the list of its maker's numbers and then its own, which is its
/// last. Knowing a tag gives no right over it.
#[derive(Debug, Drop)]
pub struct Tag {
    kept: Kept,
}

impl Model for Tag {
    ghost use Rattle.std.specs.Prelude.{ℕ, List};

    ghost Value = { List ℕ };

    ghost use Rattle.df_label.specs.code.Kept.{numbers_of, IsKept};

    ghost view = { λ t. numbers_of t.kept };

    ghost invariant = { λ t. IsKept t.kept };
}

impl Tag {
    pub fn new(alloc: Global, maker: &[u32], number: u32) -> Result<Tag, NoMemory>
        ensures { IfOk result (λ t. t ≡ maker.now ++ number ∷ []) }
    {
        if maker.len() < INLINE {
            return Ok(short(maker, number));
        }
        let mut numbers = Vec::with_capacity(alloc, maker.len() + 1)?;
        numbers.extend_from_slice(maker)?;
        numbers.push(number)?;
        Ok(Tag {
            kept: Kept::Long(Arc::new(alloc, numbers)?),
        })
    }

    /// The maker's numbers and then the tag's own.
    pub fn as_slice(&self) -> &[u32]
        ensures value { result.now ≡ self.now }
        ensures some { 0 < length result.now }
    {
        match &self.kept {
            Kept::Short(numbers, len) => &numbers[..*len as usize],
            Kept::Long(numbers) => numbers.as_slice(),
        }
    }

    /// The path of the unit that made the tag; the tags of a start have no maker's numbers.
    pub fn maker(&self) -> &[u32]
        ensures value { result.now ≡ maker_of self.now }
        ensures whole { maker_of self.now ++ number_of self.now ∷ [] ≡ self.now }
    {
        let numbers = self.as_slice();
        &numbers[..numbers.len() - 1]
    }

    /// The tag's number among those of its maker.
    pub fn number(&self) -> u32
        ensures value { result ≡ number_of self.now }
        ensures whole { maker_of self.now ++ number_of self.now ∷ [] ≡ self.now }
    {
        let numbers = self.as_slice();
        numbers[numbers.len() - 1]
    }

    /// An equal tag, with no allocation: a long one is shared.
    pub fn copy(&self) -> Result<Tag, NoMemory>
        ensures { IfOk result (λ t. t ≡ self.now) }
    {
        let kept = match &self.kept {
            Kept::Short(numbers, len) => Kept::Short(*numbers, *len),
            Kept::Long(numbers) => Kept::Long(Arc::try_clone(numbers)?),
        };
        Ok(Tag { kept })
    }

    pub fn same(&self, other: &Tag) -> bool
        ensures { IsTrue result ↔ self.now ≡ other.now }
    {
        self.as_slice() == other.as_slice()
    }
}

fn short(maker: &[u32], number: u32) -> Tag
    requires { length maker.now < INLINE }
    ensures { result ≡ maker.now ++ number ∷ [] }
{
    let mut numbers = [0; INLINE];
    let len = maker.len();
    numbers[..len].copy_from_slice(maker);
    numbers[len] = number;
    Tag {
        kept: Kept::Short(numbers, len as u8 + 1),
    }
}

impl PartialEq for Tag {
    ghost eq = { pointwise nat_eq };

    ghost laws = { partial_equiv_from_equiv nat_list_eq_equiv };

    fn eq(&self, other: &Tag) -> bool {
        self.as_slice() == other.as_slice()
    }
}

impl Eq for Tag {
    ghost laws = { nat_list_eq_equiv };
}

impl PartialOrd for Tag {
    ghost partial_cmp = { λ a b. Some (tag_cmp a b) };

    ghost laws = { texts_po };

    fn partial_cmp(&self, other: &Tag) -> Option<Ordering> {
        Some(self.cmp(other))
    }
}

/// The first number that differs decides, and a prefix comes first: `#1`, `#1.0`, `#2`.
impl Ord for Tag {
    ghost cmp = { tag_cmp };

    ghost total = { nat_list_cmp_total };

    ghost matches_partial_cmp = { λ a b. refl };

    ghost matches_eq = { texts_ties };

    fn cmp(&self, other: &Tag) -> Ordering {
        compare_numbers(self.as_slice(), other.as_slice())
    }
}

impl Hash for Tag {
    ghost hash_input = { fed.slice fed.u32 };

    ghost respects_eq = { Prim.search (hashing, rules) };

    fn hash<H: Hasher>(&self, state: &mut H) {
        self.as_slice().hash(state);
    }
}
