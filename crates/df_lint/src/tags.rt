ghost use Rattle.std.specs.Prelude.{◌≡◌, ◌||◌, ◌<◌, ℕ, List, [], IfOk, length, map, slice_index_or, true};
ghost use Rattle.df_family.specs.Family.{root_names};
ghost use Rattle.df_label.specs.Ascending.{IsAscending};
ghost use Rattle.df_label.specs.Tag.{tag_cmp};
ghost use Rattle.df_label.specs.TagSet.{contains};
ghost use Rattle.df_start.specs.Begun.{begun};
ghost use Rattle.df_lint.specs.Tags.{AreTagsOf};

use df_label::{Tag, TagSet};
use df_memory::NoMemory;
use df_start::RootStart;
use std::alloc::Global;

/// The tags in the labels and privileges of these roots.
pub fn tags_of(alloc: Global, roots: &[RootStart]) -> Result<TagSet, NoMemory>
    ensures { IfOk result (AreTagsOf (map begun roots.now)) }
{
    let mut tags = TagSet::new(alloc);
    for root in roots {
        tags = with_root(&tags, root)?;
    }
    Ok(tags)
}

/// The tags, and those of the root.
fn with_root(tags: &TagSet, root: &RootStart) -> Result<TagSet, NoMemory>
    ensures { IfOk result (λ all. (t : List ℕ) → contains all t ≡
        (contains tags.now t || root_names t (begun root.now))) }
{
    let mut all = tags.union(&root.label.s)?.union(&root.label.i)?;
    for p in root.privileges.as_slice() {
        all = all.with(&p.tag)?;
    }
    Ok(all)
}

/// The place of a tag among these.
pub fn place_of(tags: &[Tag], tag: &Tag) -> usize
    requires ascending { IsAscending tag_cmp tags.now }
    requires there { contains tags.now tag.now ≡ true }
    ensures bound { result < length tags.now }
    ensures tag { slice_index_or tags.now result [] ≡ tag.now }
{
    match tags.binary_search(tag) {
        Ok(place) => place,
        Err(_) => 0,
    }
}
