//! Tags as keys of a map, and a privilege that is granted.

use df_label::{Privilege, Right, Tag};
use df_memory::NoMemory;
use df_priv::Held;
use std::alloc::{AllocError, Global};
use std::collections::HashMap;

/// What a map has under a tag, which it has under an equal one.
fn found(alloc: Global, key: Tag, same: &Tag) -> Result<Option<u32>, AllocError> {
    let mut places = HashMap::new(alloc);
    places.insert(key, 10)?;
    Ok(places.get(same).copied())
}

fn found_of(alloc: Global) -> Result<Option<u32>, NoMemory> {
    let key = Tag::new(alloc, &[1], 0)?;
    let same = Tag::new(alloc, &[1], 0)?;
    Ok(found(alloc, key, &same)?)
}

#[test]
fn tags_are_keys(rt: HostRuntime) {
    assert_eq!(rt; found_of(rt.alloc()), Ok(Some(10)));
}

fn granted(alloc: Global, privilege: &Privilege) -> Result<bool, NoMemory> {
    let mut held = Held::new(alloc);
    held.grant(privilege)?;
    Ok(held.holds(privilege))
}

fn is_granted(alloc: Global) -> Result<bool, NoMemory> {
    let tag = Tag::new(alloc, &[1], 0)?;
    let right = Right::PlusAuth;
    granted(alloc, &Privilege { tag, right })
}

#[test]
fn a_privilege_is_granted(rt: HostRuntime) {
    assert_eq!(rt; is_granted(rt.alloc()), Ok(true));
}
