//! The places of the rows of events. Tables of slots, by the numbers of roots and of their events,
//! have the places of most events of roots; ordered maps have those of all others.

ghost use Rattle.std.specs.Prelude.{◌≡◌, ◌<◌, ℕ, IsTrue, Some, None, Option, if◌then◌else◌, IfOk, OnOk, OnErr, false, ◌==◌, length, slice_index_or, vec_len};
ghost use Rattle.std.specs.Global.{Vec};
ghost use Rattle.df_tables.specs.EventPlaces.{key_of, place_at, root_number, same_key, slot, slot_in};
ghost use Rattle.df_tables.specs.declared.event_places.Key.{Key};

use df_memory::NoMemory;
use df_unit::{EventName, UnitName};
use std::alloc::Global;
use std::collections::BTreeMap;

// How many slots a table may get for an event: 256 bytes at most, besides spare room.
const GAP: usize = 16;

// How far past the number of events a root's number may be for the root to have a table of slots.
const ROOTS: usize = 1024;

/// What an event's place is found by: an event of a root by the numbers of the root and of the
/// event, any other by its number and its unit.
#[derive(Drop)]
pub enum Key {
    Numbered(u32, u32),
    Named((u32, UnitName)),
}

/// The places of events. How much memory they take goes by how many events there are, and not by
/// their numbers; besides, there are at most 1,024 empty tables.
#[derive(Drop)]
pub struct EventPlaces {
    /// For each root, by its number, the places of its events, by their numbers.
    near: Vec<Vec<Option<usize>>>,
    /// The places of the roots' other events.
    strays: BTreeMap<(u32, u32), usize>,
    /// The places of all other events.
    named: BTreeMap<(u32, UnitName), usize>,
}

/// The root's number, where the unit is a root.
pub(crate) fn root_number(unit: &UnitName) -> Option<u32>
    ensures { result ≡ root_number unit.now }
{
    match unit {
        UnitName::Root(path) => match path.as_slice() {
            [root] => Some(*root),
            _ => None,
        },
        UnitName::Managed { .. } => None,
    }
}

/// What an event's place is found by.
pub(crate) fn key_of(event: &EventName) -> Result<Key, NoMemory>
    ensures { IfOk result (λ key. key ≡ key_of event.now) }
{
    if let Some(root) = root_number(&event.unit) {
        return Ok(Key::Numbered(root, event.number));
    }
    Ok(Key::Named((event.number, event.unit.copy()?)))
}

/// The place in the slot of a root's event.
fn near_place(near: &[Vec<Option<usize>>], root: u32, number: u32) -> Option<usize>
    ensures { result ≡ slot_in near.now root number }
{
    let slots = near.get(root as usize)?;
    *slots.get(number as usize)?
}

/// Tables of slots up to that of the root, the new ones empty, unless its number is far past that
/// of the events.
fn widen(near: &mut Vec<Vec<Option<usize>>>, root: usize, events: usize) -> Result<(), NoMemory>
    ensures { (r n : ℕ) → slot_in near.new.items r n ≡ slot_in near.old.items r n }
{
    if root.saturating_sub(events) >= ROOTS {
        return Ok(());
    }
    let alloc = *near.allocator();
    'tables: while near.len() <= root {
        near.push(Vec::new(alloc))?;
    }
    Ok(())
}

/// Slots up to that of the number, but few at once: what a table takes goes by the events, and not
/// by their numbers. A table that is far behind the number comes up event by event.
fn lengthen(slots: &mut Vec<Option<usize>>, number: u32) -> Result<(), NoMemory>
    ensures { (n : ℕ) → slot slots.new.items n ≡ slot slots.old.items n }
{
    let len = (number as usize + 1).min(slots.len().saturating_add(GAP));
    if slots.len() < len {
        slots.resize(len, None)?;
    }
    Ok(())
}

/// Slots up to that of the number in the root's table, where it has one.
fn reach(near: &mut Vec<Vec<Option<usize>>>, root: usize, number: u32) -> Result<(), NoMemory>
    ensures { (r n : ℕ) → slot_in near.new.items r n ≡ slot_in near.old.items r n }
{
    if near.len() <= root {
        return Ok(());
    }
    lengthen(&mut near[root], number)
}

/// Whether the root has a table with a slot of the number.
fn is_near(near: &[Vec<Option<usize>>], root: u32, number: u32) -> bool
    ensures table { IsTrue result → root < length near.now }
    ensures slot { IsTrue result → (d : Vec (Option ℕ)) →
        number < vec_len (slice_index_or near.now root d) }
    ensures far { result ≡ false → slot_in near.now root number ≡ None }
{
    match near.get(root as usize) {
        Some(slots) => (number as usize) < slots.len(),
        None => false,
    }
}

fn put_slot(slots: &mut Vec<Option<usize>>, number: u32, place: usize)
    requires { number < vec_len slots.old }
    ensures { (n : ℕ) → slot slots.new.items n
        ≡ (if number == n then Some place else slot slots.old.items n) }
{
    slots[number as usize] = Some(place);
}

impl EventPlaces {
    /// None. Takes no memory.
    pub(crate) fn new(alloc: Global) -> EventPlaces
        ensures { (q : Key) → place_at result q ≡ None }
    {
        EventPlaces {
            near: Vec::new(alloc),
            strays: BTreeMap::new(alloc),
            named: BTreeMap::new(alloc),
        }
    }

    /// The place of a root's event.
    pub(crate) fn find_numbered(&self, root: u32, number: u32) -> Option<usize>
        ensures { result ≡ place_at self.now (Key.Numbered root number) }
    {
        let near = near_place(self.near.as_slice(), root, number);
        if near.is_some() {
            return near;
        }
        self.strays.get(&(root, number)).copied()
    }

    /// The place that the key has.
    pub(crate) fn find(&self, key: &Key) -> Option<usize>
        ensures { result ≡ place_at self.now key.now }
    {
        match key {
            Key::Numbered(root, number) => self.find_numbered(*root, *number),
            Key::Named(name) => self.named.get(name).copied(),
        }
    }

    /// Gives a root's event this place, which is the number of events that have a row.
    pub(crate) fn put_numbered(
        &mut self,
        root: u32,
        number: u32,
        place: usize,
    ) -> Result<(), NoMemory>
        ensures put { OnOk result ((q : Key) → place_at self.new q
            ≡ (if same_key (Key.Numbered root number) q then Some place else place_at self.old q)) }
        ensures unchanged { OnErr result ((q : Key) → place_at self.new q ≡ place_at self.old q) }
    {
        widen(&mut self.near, root as usize, place)?;
        reach(&mut self.near, root as usize, number)?;
        if !is_near(self.near.as_slice(), root, number) {
            self.strays.insert((root, number), place)?;
            return Ok(());
        }
        put_slot(&mut self.near[root as usize], number, place);
        Ok(())
    }

    /// Gives the event of the key this place, which is that of a row behind those of all others.
    pub(crate) fn put(&mut self, key: Key, place: usize) -> Result<(), NoMemory>
        ensures put { OnOk result ((q : Key) → place_at self.new q
            ≡ (if same_key key q then Some place else place_at self.old q)) }
        ensures unchanged { OnErr result ((q : Key) → place_at self.new q ≡ place_at self.old q) }
    {
        match key {
            Key::Numbered(root, number) => self.put_numbered(root, number, place),
            Key::Named(name) => {
                self.named.insert(name, place)?;
                Ok(())
            }
        }
    }
}
