//! Values of any depth, on the usual stack.

use df_frozen::{Entries, FreezeCause, Items, Name, NotPut, Step, Value};
use std::alloc::Global;
use std::test::Fail;

/// A list of this value alone.
fn list_of(alloc: Global, value: Value) -> Result<Value, NotPut> {
    let mut list = Value::Items(Items::new(alloc));
    list.push_at(&[], value)?;
    Ok(list)
}

/// A map of this value alone.
fn map_of(alloc: Global, name: Name, value: Value) -> Result<Value, NotPut> {
    let mut map = Value::Map(Entries::new(alloc));
    map.put_at(&[], name, value)?;
    Ok(map)
}

/// A number in as many lists.
fn nested(alloc: Global, lists: u32) -> Result<Value, NotPut> {
    let mut value = Value::Int(0);
    for _ in 0..lists {
        value = list_of(alloc, value)?;
    }
    Ok(value)
}

/// A number in as many layers, in turn a list and a map.
fn layered(alloc: Global, name: Name, layers: u32) -> Result<Value, NotPut> {
    let mut value = Value::Int(0);
    for layer in 0..layers {
        if layer % 2 == 0 {
            value = list_of(alloc, value)?;
        } else {
            value = map_of(alloc, name, value)?;
        }
    }
    Ok(value)
}

/// Why the value isn't frozen.
fn cause_of(alloc: Global, value: Value) -> Option<FreezeCause> {
    match value.freeze(alloc) {
        Ok(_) => None,
        Err(refused) => Some(refused.cause),
    }
}

/// Why a copy of the value isn't frozen.
fn copied_cause(alloc: Global, value: &Value) -> Option<FreezeCause> {
    match value.copy() {
        Ok(copy) => cause_of(alloc, copy),
        Err(_) => None,
    }
}

fn nested_cause(alloc: Global, lists: u32) -> Option<FreezeCause> {
    match nested(alloc, lists) {
        Ok(value) => cause_of(alloc, value),
        Err(_) => None,
    }
}

fn layered_cause(alloc: Global, name: Name, layers: u32) -> Option<FreezeCause> {
    match layered(alloc, name, layers) {
        Ok(value) => copied_cause(alloc, &value),
        Err(_) => None,
    }
}

fn too_large(nodes: u64, bytes: u64, depth: u64) -> Option<FreezeCause> {
    Some(FreezeCause::TooLarge {
        nodes,
        bytes,
        depth,
    })
}

#[test]
fn values_are_refused_at_any_depth(rt: HostRuntime) -> Result<(), Fail> {
    assert_eq!(rt; nested_cause(rt.alloc(), 31), None);
    assert_eq!(rt;
        nested_cause(rt.alloc(), 999_999),
        too_large(1_000_000, 0, 1_000_000)
    );
    let name = Name::new("b")?;
    assert_eq!(rt;
        layered_cause(rt.alloc(), name, 200_000),
        too_large(200_001, 100_000, 200_001)
    );
    Ok(())
}

/// Whether a number is put in place of a list's own, and not where there is none.
fn is_set(list: &mut Value) -> bool {
    list.set_at(&[Step::At(0)], Value::Int(1)).is_ok()
        && list.set_at(&[Step::At(1)], Value::Int(1)).is_err()
}

fn is_set_in_list(alloc: Global) -> Option<bool> {
    match nested(alloc, 1) {
        Ok(mut list) => Some(is_set(&mut list)),
        Err(_) => None,
    }
}

#[test]
fn a_number_is_set_in_a_list(rt: HostRuntime) {
    assert_eq!(rt; is_set_in_list(rt.alloc()), Some(true));
}

/// Whether a list or a map is copied by its own function.
fn is_copied(value: &Value) -> bool {
    match value {
        Value::Items(items) => items.copy().is_ok(),
        Value::Map(map) => map.copy().is_ok(),
        _ => false,
    }
}

fn are_copied(alloc: Global, name: Name) -> Result<bool, NotPut> {
    let list = list_of(alloc, Value::Int(0))?;
    let is_first = is_copied(&list);
    let map = map_of(alloc, name, list)?;
    Ok(is_first && is_copied(&map))
}

#[test]
fn lists_and_maps_are_copied(rt: HostRuntime) -> Result<(), Fail> {
    let name = Name::new("b")?;
    assert_eq!(rt; are_copied(rt.alloc(), name).ok(), Some(true));
    Ok(())
}
