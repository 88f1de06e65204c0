//! Which instances each event was handed to, and which it is about to be handed to.

ghost use Rattle.std.specs.Prelude.{◌≡◌, ℕ, ◌+◌, ◌<◌, ◌≤◌, ◌||◌, [], Some, None, length, vec_len, vec_capacity, OnOk, OnErr};
ghost use Rattle.std.specs.List.Sorted.{IsSorted};
ghost use Rattle.std.specs.Ordering.{nat_cmp};
ghost use Rattle.df_instances.specs.Marks.{handed_at, has_place, is_ready, was_handed};

use crate::places::Places;
use df_memory::NoMemory;
use std::alloc::Global;
use std::marker::Model;
use std::mem;

/// To which instances each event was handed. Both are named by their places in lists of the caller.
#[derive(Drop)]
pub struct Marks {
    /// For each event, by its place, the instances, ascending.
    handed: Vec<Places>,
    /// The instances that wait to be booked, if any with room for those of their event.
    next: Vec<usize>,
    event: Option<usize>,
}

impl Model for Marks {
    ghost use Rattle.std.specs.Prelude.{vec_len, vec_capacity};
    ghost use Rattle.df_instances.specs.Marks.{MarksState, marks_code};
    ghost use Rattle.df_instances.specs.code.Marks.{IsMarks, ready_of};

    ghost Value = { MarksState };

    ghost coded = { marks_code };

    ghost view = { λ m. record {
      handed = m.handed.items;
      ready = ready_of m.event m.next.items;
    } };

    ghost invariant = { λ m. IsMarks m.handed.items (vec_capacity m.handed) m.event
        (vec_len m.next) (vec_capacity m.next) };
}

fn of_event(handed: &[Places], event: usize) -> &[usize]
    ensures { result.now ≡ handed_at handed.now event }
{
    match handed.get(event) {
        None => &[],
        Some(instances) => instances.as_slice(),
    }
}

fn has_place(places: &[usize], place: usize) -> bool
    requires { IsSorted nat_cmp places.now }
    ensures { result ≡ has_place places.now place }
{
    places.binary_search(&place).is_ok()
}

/// Makes room for a row of the event.
fn reserve_row(handed: &mut Vec<Places>, event: usize) -> Result<(), NoMemory>
    ensures items { handed.new.items ≡ handed.old.items }
    ensures room { OnOk result (event < vec_capacity handed.new) }
    ensures capacity { vec_capacity handed.old ≤ vec_capacity handed.new }
{
    let Some(rows) = event.checked_add(1) else {
        return Err(NoMemory);
    };
    handed.reserve(rows.saturating_sub(handed.len()))?;
    Ok(())
}

/// Rows up to that of the event, the new ones without instances.
fn fill_rows(alloc: Global, handed: &mut Vec<Places>, event: usize)
    requires { event < vec_capacity handed.old }
    ensures same { (e : ℕ) → handed_at handed.new.items e ≡ handed_at handed.old.items e }
    ensures row { event < vec_len handed.new }
    ensures capacity { vec_capacity handed.new ≡ vec_capacity handed.old }
{
    'rows: while handed.len() <= event {
        handed.push_reserved(Places::new(Vec::new(alloc)));
    }
}

/// The places of both, ascending. Takes no memory.
fn merged(mut next: Vec<usize>, handed: &[usize]) -> Vec<usize>
    requires { vec_len next + length handed.now ≤ vec_capacity next }
    ensures ascending { IsSorted nat_cmp result.items }
    ensures places { (k : ℕ) → has_place result.items k
        ≡ (has_place handed.now k || has_place next.items k) }
{
    let _room = next.extend_from_slice(handed);
    next.sort_unstable();
    next
}

impl Marks {
    ghost use Rattle.df_instances.specs.Marks.{MarksState};

    /// Takes no memory.
    pub fn new(alloc: Global) -> Marks
        ensures { result ≡ record { handed = []; ready = None } }
    {
        Marks {
            handed: Vec::new(alloc),
            next: Vec::new(alloc),
            event: None,
        }
    }

    /// Whether the event was handed to the instance.
    pub fn was_handed(&self, event: usize, instance: usize) -> bool
        ensures { result ≡ was_handed self.now.handed event instance }
    {
        has_place(of_event(self.handed.as_slice(), event), instance)
    }

    /// Makes all ready to mark the event as handed to these instances, in place of what was ready.
    pub fn ready(&mut self, event: usize, instances: &[usize]) -> Result<(), NoMemory>
        ensures ok { OnOk result (self.new
            ≡ record self.old { ready = Some (event, instances.now) }) }
        ensures unchanged { OnErr result (self.new ≡ self.old) }
    {
        if instances.is_empty() {
            self.next.clear();
            self.event = Some(event);
            return Ok(());
        }
        let alloc = *self.next.allocator();
        let mut next = Vec::from_slice(alloc, instances)?;
        next.reserve(of_event(self.handed.as_slice(), event).len())?;
        reserve_row(&mut self.handed, event)?;
        self.next = next;
        self.event = Some(event);
        Ok(())
    }

    /// Marks the event as handed to the instances that are ready. Takes no memory.
    pub fn book(&mut self)
        ensures handed { (e k : ℕ) → was_handed self.new.handed e k
            ≡ (was_handed self.old.handed e k || is_ready self.old.ready e k) }
        ensures ready { self.new.ready ≡ None }
    {
        let Some(event) = self.event else {
            return;
        };
        self.event = None;
        if self.next.is_empty() {
            return;
        }
        let alloc = *self.next.allocator();
        let next = mem::replace(&mut self.next, Vec::new(alloc));
        fill_rows(alloc, &mut self.handed, event);
        let instances = merged(next, of_event(self.handed.as_slice(), event));
        self.handed[event] = Places::new(instances);
    }
}
