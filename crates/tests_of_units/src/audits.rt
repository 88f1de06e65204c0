//! What a machine leaves and notes of a journal without entries.

use df_label::{Label, Privileges, TagSet};
use df_purge::purge;
use df_start::{RootStart, Start};
use df_upgrade::note;
use std::alloc::{AllocError, Global};

fn public(alloc: Global) -> Label {
    Label {
        s: TagSet::new(alloc),
        i: TagSet::new(alloc),
    }
}

/// One root.
fn start(alloc: Global) -> Result<Start, AllocError> {
    let root = RootStart {
        label: public(alloc),
        privileges: Privileges::new(alloc),
    };
    let mut roots = Vec::new(alloc);
    roots.push(root)?;
    Ok(Start::new(roots))
}

fn purged_count(alloc: Global, start: &Start, label: &Label) -> Option<usize> {
    match purge(alloc, start, label, &[]) {
        Ok(left) => Some(left.len()),
        Err(_) => None,
    }
}

fn noted_count(alloc: Global, start: &Start) -> Option<usize> {
    match note(alloc, start, &[]) {
        Ok(notes) => Some(notes.len()),
        Err(_) => None,
    }
}

fn both_counts(alloc: Global, start: &Start, label: &Label) -> Option<(usize, usize)> {
    let left = purged_count(alloc, start, label)?;
    let notes = noted_count(alloc, start)?;
    Some((left, notes))
}

fn counts(alloc: Global) -> Option<(usize, usize)> {
    match start(alloc) {
        Ok(start) => both_counts(alloc, &start, &public(alloc)),
        Err(_) => None,
    }
}

#[test]
fn nothing_is_left_and_noted_of_nothing(rt: HostRuntime) {
    assert_eq!(rt; counts(rt.alloc()), Some((0, 0)));
}
