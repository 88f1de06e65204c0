//! Slices of tags, ascending where a walk over two of them needs it.
ghost use Rattle.std.specs.Prelude.{◌≡◌, IsTrue, ◌↔◌, ◌++◌, IfOk, OnOk, option_copied};
ghost use Rattle.df_label.specs.Ascending.{IsAscending};
ghost use Rattle.df_label.specs.Tag.{tag_cmp};
ghost use Rattle.df_label.specs.TagSet.{contains, first_missing, without, union, meet};

use crate::Tag;
use df_memory::NoMemory;
use std::alloc::Global;
use std::cmp::Ordering;

pub fn same(tags: &[Tag], others: &[Tag]) -> bool
    ensures { IsTrue result ↔ tags.now ≡ others.now }
{
    tags == others
}

pub fn contains(tags: &[Tag], t: &Tag) -> bool
    requires { IsAscending tag_cmp tags.now }
    ensures { result ≡ contains tags.now t.now }
{
    tags.binary_search(t).is_ok()
}

pub fn first_missing<'a>(tags: &[Tag], of: &'a [Tag]) -> Option<&'a Tag>
    requires ascending { IsAscending tag_cmp tags.now }
    requires of_ascending { IsAscending tag_cmp of.now }
    ensures { option_copied result ≡ first_missing tags.now of.now }
{
    let mut left = tags;
    let mut rest = of;
    while let Some((t, others)) = rest.split_first() {
        let Some((u, more)) = left.split_first() else {
            return Some(t);
        };
        match t.cmp(u) {
            Ordering::Less => return Some(t),
            Ordering::Equal => {
                left = more;
                rest = others;
            }
            Ordering::Greater => left = more,
        }
    }
    None
}

pub fn union(alloc: Global, tags: &[Tag], others: &[Tag]) -> Result<Vec<Tag>, NoMemory>
    requires ascending { IsAscending tag_cmp tags.now }
    requires others_ascending { IsAscending tag_cmp others.now }
    ensures { IfOk result (λ v. v.items ≡ union tags.now others.now) }
{
    let mut all = Vec::with_capacity(alloc, tags.len().saturating_add(others.len()))?;
    let mut left = tags;
    let mut right = others;
    while let Some((t, more)) = left.split_first() {
        let Some((u, rest)) = right.split_first() else {
            all.push(t.copy()?)?;
            left = more;
            continue;
        };
        match t.cmp(u) {
            Ordering::Less => {
                all.push(t.copy()?)?;
                left = more;
                continue;
            }
            Ordering::Equal => {
                all.push(t.copy()?)?;
                left = more;
                right = rest;
                continue;
            }
            Ordering::Greater => {
                all.push(u.copy()?)?;
                right = rest;
                continue;
            }
        }
    }
    push_copies(&mut all, right)?;
    Ok(all)
}

fn push_copies(to: &mut Vec<Tag>, tags: &[Tag]) -> Result<(), NoMemory>
    ensures { OnOk result (to.new.items ≡ to.old.items ++ tags.now) }
{
    for t in tags {
        to.push(t.copy()?)?;
    }
    Ok(())
}

pub fn without(alloc: Global, tags: &[Tag], t: &Tag) -> Result<Vec<Tag>, NoMemory>
    ensures { IfOk result (λ v. v.items ≡ without tags.now t.now) }
{
    let mut kept = Vec::new(alloc);
    for u in tags {
        if !u.cmp(t).is_eq() {
            kept.push(u.copy()?)?;
        }
    }
    Ok(kept)
}

pub fn meet(alloc: Global, tags: &[Tag], others: &[Tag]) -> Result<Vec<Tag>, NoMemory>
    requires { IsAscending tag_cmp others.now }
    ensures { IfOk result (λ v. v.items ≡ meet tags.now others.now) }
{
    let mut kept = Vec::new(alloc);
    for t in tags {
        if contains(others, t) {
            kept.push(t.copy()?)?;
        }
    }
    Ok(kept)
}
