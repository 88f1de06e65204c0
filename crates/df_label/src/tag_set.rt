//! Sets of tags.
ghost use Rattle.std.specs.Prelude.{◌≡◌, ◌++◌, All, IsTrue, ◌↔◌, IfOk, OnOk, Some, [], length, slice_get, option_copied, refl};
ghost use Rattle.std.specs.Cmp.{partial_equiv_from_equiv, po};
ghost use Rattle.std.specs.Cmp.Lexicographic.{pointwise_decides, bytes_decides, nat_list_eq_equiv, nat_list_cmp_total, texts_ties, lists_equiv, lists_total, lists_ties};
ghost use Rattle.std.specs.Hash as fed;
ghost use Rattle.std.proofs.Common.{ap};
ghost use Rattle.df_label.specs.Ascending.{IsAscending};
ghost use Rattle.df_label.specs.Spelling.{AreShort, tags_text};
ghost use Rattle.df_label.specs.Tag.{tag_cmp};
ghost use Rattle.df_label.specs.TagSet.{tag_set_cmp, tag_set_eq, contains, is_subset, first_missing, with, without, union, meet};

use crate::spelled_tags::SpelledTags;
use crate::{Tag, tags};
use df_memory::NoMemory;
use std::alloc::Global;
use std::cmp::Ordering;
use std::hash::{Hash, Hasher};
use std::marker::Model;
use std::slice;
use std::sync::Arc;

/// A set of tags. A contract sees it as the ascending list of its tags, without repeats. The empty
/// set takes no memory, an operation that adds nothing shares what it had, and copies share the
/// spelling too, which a set of many tags keeps.
#[derive(Debug, Drop)]
pub struct TagSet {
    tags: Option<Arc<SpelledTags>>,
    alloc: Global,
}

impl Model for TagSet {
    ghost use Rattle.std.specs.Prelude.{ℕ, List};
    ghost use Rattle.df_label.specs.Ascending.{IsAscending};
    ghost use Rattle.df_label.specs.code.SpelledTags.{tags_of};
    ghost use Rattle.df_label.specs.Tag.{tag_cmp};

    ghost Value = { List (List ℕ) };

    ghost view = { λ s. tags_of s.tags };

    ghost invariant = { λ s. IsAscending tag_cmp (tags_of s.tags) };
}

impl TagSet {
    /// The empty set.
    pub const fn new(alloc: Global) -> TagSet
        ensures { result ≡ [] }
    {
        TagSet { tags: None, alloc }
    }

    /// The set of tags that stand in order.
    pub fn from_ascending(tags: Vec<Tag>) -> Result<TagSet, NoMemory>
        requires { IsAscending tag_cmp tags.items }
        ensures { IfOk result (λ s. s ≡ tags.items) }
    {
        let alloc = *tags.allocator();
        if tags.is_empty() {
            return Ok(TagSet::new(alloc));
        }
        let tags = Some(Arc::new(alloc, SpelledTags::new(tags)?)?);
        Ok(TagSet { tags, alloc })
    }

    /// The set of tags that stand in order, of numbers of 32 bits, of which this is the spelling.
    pub fn from_spelled(tags: Vec<Tag>, spelling: &[u8]) -> Result<TagSet, NoMemory>
        requires ascending { IsAscending tag_cmp tags.items }
        requires spelled { spelling.now ≡ tags_text tags.items }
        requires short { All AreShort tags.items }
        ensures { IfOk result (λ s. s ≡ tags.items) }
    {
        let alloc = *tags.allocator();
        let tags = Some(Arc::new(alloc, SpelledTags::from_spelled(tags, spelling)?)?);
        Ok(TagSet { tags, alloc })
    }

    pub fn len(&self) -> usize
        ensures { result ≡ length self.now }
    {
        self.as_slice().len()
    }

    pub fn is_empty(&self) -> bool
        ensures { IsTrue result ↔ (self.now ≡ []) }
    {
        self.as_slice().is_empty()
    }

    /// The tag at a place of the ascending list, from 0.
    pub fn at(&self, k: usize) -> Option<&Tag>
        ensures value { option_copied result ≡ slice_get self.now k }
        ensures ascending { IsAscending tag_cmp self.now }
    {
        self.as_slice().get(k)
    }

    pub fn as_slice(&self) -> &[Tag]
        ensures value { result.now ≡ self.now }
        ensures ascending { IsAscending tag_cmp self.now }
    {
        match &self.tags {
            None => &[],
            Some(tags) => tags.as_slice(),
        }
    }

    pub fn contains(&self, t: &Tag) -> bool
        ensures { result ≡ contains self.now t.now }
    {
        tags::contains(self.as_slice(), t)
    }

    pub fn is_subset(&self, of: &TagSet) -> bool
        ensures { result ≡ is_subset self.now of.now }
    {
        match (&self.tags, &of.tags) {
            (None, _) => true,
            (Some(tags), Some(others)) => tags.is_subset(others),
            (Some(_), None) => self.is_empty(),
        }
    }

    /// The least tag of `of` that this set lacks.
    pub fn first_missing<'a>(&self, of: &'a TagSet) -> Option<&'a Tag>
        ensures { option_copied result ≡ first_missing self.now of.now }
    {
        tags::first_missing(self.as_slice(), of.as_slice())
    }

    pub fn with(&self, t: &Tag) -> Result<TagSet, NoMemory>
        ensures { IfOk result (λ s. s ≡ with self.now t.now) }
    {
        let tags = self.as_slice();
        if tags::contains(tags, t) {
            return self.copy();
        }
        TagSet::from_ascending(tags::union(self.alloc, tags, slice::from_ref(t))?)
    }

    pub fn without(&self, t: &Tag) -> Result<TagSet, NoMemory>
        ensures { IfOk result (λ s. s ≡ without self.now t.now) }
    {
        let tags = self.as_slice();
        if !tags::contains(tags, t) {
            return self.copy();
        }
        TagSet::from_ascending(tags::without(self.alloc, tags, t)?)
    }

    /// The tags of either set.
    pub fn union(&self, other: &TagSet) -> Result<TagSet, NoMemory>
        ensures { IfOk result (λ s. s ≡ union self.now other.now) }
    {
        let tags = self.as_slice();
        let others = other.as_slice();
        if other.is_subset(self) {
            return self.copy();
        }
        if self.is_subset(other) {
            return other.copy();
        }
        TagSet::from_ascending(tags::union(self.alloc, tags, others)?)
    }

    /// The tags of both sets.
    pub fn meet(&self, other: &TagSet) -> Result<TagSet, NoMemory>
        ensures { IfOk result (λ s. s ≡ meet self.now other.now) }
    {
        let tags = self.as_slice();
        let others = other.as_slice();
        if self.is_subset(other) {
            return self.copy();
        }
        if other.is_subset(self) {
            return other.copy();
        }
        TagSet::from_ascending(tags::meet(self.alloc, tags, others)?)
    }

    /// An equal set, with no allocation: the tags are shared.
    pub fn copy(&self) -> Result<TagSet, NoMemory>
        ensures value { IfOk result (λ s. s ≡ self.now) }
        ensures ascending { IsAscending tag_cmp self.now }
    {
        let tags = match &self.tags {
            None => None,
            Some(tags) => Some(Arc::try_clone(tags)?),
        };
        Ok(TagSet {
            tags,
            alloc: self.alloc,
        })
    }

    pub fn same(&self, other: &TagSet) -> bool
        ensures { IsTrue result ↔ self.now ≡ other.now }
    {
        match (&self.tags, &other.tags) {
            (Some(tags), Some(others)) => tags.same(others),
            _ => self.is_empty() && other.is_empty(),
        }
    }

    /// Appends the tags with `,` between them; of the empty set no bytes.
    pub fn append_to(&self, to: &mut Vec<u8>) -> Result<(), NoMemory>
        ensures { OnOk result (to.new.items ≡ to.old.items ++ tags_text self.now) }
    {
        match &self.tags {
            None => Ok(()),
            Some(tags) => tags.append_to(to),
        }
    }
}

impl PartialEq for TagSet {
    ghost eq = { tag_set_eq };

    ghost laws = { partial_equiv_from_equiv (lists_equiv nat_list_eq_equiv) };

    fn eq(&self, other: &TagSet) -> bool {
        self.same(other)
    }
}

impl Eq for TagSet {
    ghost laws = { lists_equiv nat_list_eq_equiv };
}

impl PartialOrd for TagSet {
    ghost partial_cmp = { λ a b. Some (tag_set_cmp a b) };

    ghost laws = { po (lists_total nat_list_cmp_total) (lists_ties tag_cmp texts_ties) };

    fn partial_cmp(&self, other: &TagSet) -> Option<Ordering> {
        Some(self.cmp(other))
    }
}

/// As lists of tags: the first tag that differs decides, and a prefix comes first.
impl Ord for TagSet {
    ghost cmp = { tag_set_cmp };

    ghost total = { lists_total nat_list_cmp_total };

    ghost matches_partial_cmp = { λ a b. refl };

    ghost matches_eq = { lists_ties tag_cmp texts_ties };

    fn cmp(&self, other: &TagSet) -> Ordering {
        self.as_slice().cmp(&other.as_slice())
    }
}

impl Hash for TagSet {
    ghost hash_input = { fed.slice (fed.slice fed.u32) };

    ghost respects_eq = { λ x y h. ap (fed.slice (fed.slice fed.u32)) ((pointwise_decides bytes_decides x y).0 h) };

    fn hash<H: Hasher>(&self, state: &mut H) {
        self.as_slice().hash(state);
    }
}
