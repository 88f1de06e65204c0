//! The calls of one unit, each by its own function, with its reply.

use df_frozen::{Frozen, Name, Value};
use df_label::{Label, Privilege, Privileges, Right, Tag, TagSet};
use df_local::Local;
use df_memory::NoMemory;
use df_part::{Part, PartRef, Parts};
use df_priv::{Act, Half};
use df_unit::{EventName, Given, Path, Reply, UnitName};
use std::alloc::Global;
use std::test::Fail;

/// A call of the unit, with its handle.
#[derive(Clone, Copy)]
enum Ask {
    Create,
    Add(u32),
    Del(u32),
    Read(u32),
    Clone(u32),
    Attach(u32),
    Out,
    InOut,
    Tag,
    Drop(u32),
    Sub,
    TakeIn,
}

/// The reply's kind and its number, if it has one.
#[derive(Clone, Copy)]
enum Told {
    Ok,
    Handle(u32),
    Tag(u32),
    Sub(u32),
    Event(u32),
    Parts(usize),
    NoSuchHandle,
}

/// What the calls are made with.
#[derive(Drop)]
struct With {
    label: Label,
    name: Name,
    value: Frozen,
    privilege: Privilege,
    given: Given,
}

fn is_told(reply: &Reply, told: Told) -> bool {
    match (reply, told) {
        (Reply::Ok, Told::Ok) => true,
        (Reply::Handle(h), Told::Handle(wanted)) => *h == wanted,
        (Reply::Tag(tag), Told::Tag(wanted)) => tag.number() == wanted,
        (Reply::Sub(n), Told::Sub(wanted)) => *n == wanted,
        (Reply::Event { h, .. }, Told::Event(wanted)) => *h == wanted,
        (Reply::Parts(parts), Told::Parts(wanted)) => parts.as_slice().len() == wanted,
        (Reply::NoSuchHandle, Told::NoSuchHandle) => true,
        _ => false,
    }
}

fn reply_to(unit: &mut Local, with: &With, call: Ask) -> Result<Reply, NoMemory> {
    match call {
        Ask::Create => unit.create_event(),
        Ask::Add(h) => unit.add_part(h, &with.label, &with.name, &with.value),
        Ask::Del(h) => unit.del_part(h, &with.label, &with.name),
        Ask::Read(h) => unit.read_part(h, &with.name),
        Ask::Clone(h) => unit.clone_event(h, &with.label),
        Ask::Attach(h) => unit.attach_privilege(h, &with.label, &with.name, &with.privilege),
        Ask::Out => unit.change_out_label(Half::S, Act::Add, &with.privilege.tag),
        Ask::InOut => unit.change_in_out(Half::I, Act::Del, &with.privilege.tag),
        Ask::Tag => unit.create_tag(),
        Ask::Drop(h) => unit.drop_event(h),
        Ask::Sub => Ok(unit.count_sub()),
        Ask::TakeIn => unit.take_in(&with.given),
    }
}

/// Whether the call is answered so.
fn tells(unit: &mut Local, with: &With, call: Ask, told: Told) -> bool {
    match reply_to(unit, with, call) {
        Ok(reply) => is_told(&reply, told),
        Err(_) => false,
    }
}

/// The calls of the unit in turn.
const CALLS: [(Ask, Told); 16] = [
    (Ask::Create, Told::Handle(0)),
    (Ask::Create, Told::Handle(1)),
    (Ask::Drop(0), Told::Ok),
    (Ask::Drop(0), Told::NoSuchHandle),
    (Ask::Create, Told::Handle(0)),
    (Ask::Tag, Told::Tag(0)),
    (Ask::Tag, Told::Tag(1)),
    (Ask::Sub, Told::Sub(0)),
    (Ask::Add(0), Told::Ok),
    (Ask::Attach(0), Told::Ok),
    (Ask::Clone(0), Told::Handle(2)),
    (Ask::Del(0), Told::Ok),
    (Ask::TakeIn, Told::Event(3)),
    (Ask::Read(3), Told::Parts(1)),
    (Ask::Out, Told::Ok),
    (Ask::InOut, Told::Ok),
];

/// How many calls are answered otherwise.
fn misses(unit: &mut Local, with: &With) -> usize {
    let mut count = 0usize;
    for (call, told) in &CALLS {
        if !tells(unit, with, *call, *told) {
            count = count.saturating_add(1);
        }
    }
    count
}

fn public(alloc: Global) -> Label {
    Label {
        s: TagSet::new(alloc),
        i: TagSet::new(alloc),
    }
}

/// What root 0 hands over: an event with this part.
fn given(part: PartRef, alloc: Global) -> Result<Given, Fail> {
    let mut parts = Vec::new(alloc);
    parts.push(part)?;
    Ok(Given {
        event: EventName {
            unit: UnitName::Root(Path::root(0)),
            number: 0,
        },
        sub: 0,
        parts: Parts::new(parts),
    })
}

/// The same, of a part of this name and value.
fn given_of(alloc: Global, name: Name, value: &Frozen) -> Result<Given, Fail> {
    let value = value.share()?;
    let part = Part {
        name,
        label: public(alloc),
        value,
        privileges: Privileges::new(alloc),
    };
    given(PartRef::new(alloc, part)?, alloc)
}

fn root_misses(alloc: Global, with: &With) -> Result<usize, Fail> {
    let mut unit = Local::of_root(alloc, 4, public(alloc), Privileges::new(alloc))?;
    Ok(misses(&mut unit, with))
}

/// How many calls of unit 4 are answered otherwise, to whose first tag the privilege belongs.
fn misses_of(alloc: Global) -> Result<usize, Fail> {
    let name = Name::new("price")?;
    let tag = Tag::new(alloc, &[4], 0)?;
    let value = Frozen::new(alloc, Value::Int(5))?;
    let given = given_of(alloc, name, &value)?;
    let right = Right::Plus;
    let with = With {
        label: public(alloc),
        name,
        value,
        privilege: Privilege { tag, right },
        given,
    };
    root_misses(alloc, &with)
}

#[test]
fn calls_are_answered_in_turn(rt: HostRuntime) -> Result<(), Fail> {
    assert_eq!(rt; misses_of(rt.alloc())?, 0);
    Ok(())
}
