//! To whom each event was handed, and to whom it is about to be.

ghost use Rattle.std.specs.Prelude.{◌≡◌, ℕ, ◌+◌, ◌<◌, ◌≤◌, ◌==◌, ◌&&◌, ◌||◌, [], Some, None, length, vec_len, vec_capacity, IfOk, OnOk, OnErr};
ghost use Rattle.std.specs.List.Sorted.{IsSorted};
ghost use Rattle.df_index.specs.Due.{Pair, has_pair, pair_cmp};
ghost use Rattle.df_index.specs.IndexState.{handed_at, was_handed};

use crate::Receivers;
use df_memory::NoMemory;
use std::alloc::Global;
use std::marker::Model;
use std::mem;

/// For each event, by its place, the pairs to which it was handed, ascending; and the receivers
/// that wait to be booked, with room for the pairs of their event, if there are any.
#[derive(Drop)]
pub(crate) struct Marks {
    handed: Vec<Receivers>,
    next: Vec<(usize, u32)>,
    event: Option<usize>,
}

impl Model for Marks {
    ghost use Rattle.std.specs.Prelude.{vec_len, vec_capacity};
    ghost use Rattle.df_index.specs.Marks.{IsMarks, MarksState, marks_code, ready_of};

    ghost Value = { MarksState };

    ghost coded = { marks_code };

    ghost view = { λ m. record {
      handed = m.handed.items;
      ready = ready_of m.event m.next.items;
    } };

    ghost invariant = { λ m. IsMarks m.handed.items (vec_capacity m.handed) m.event
        (vec_len m.next) (vec_capacity m.next) };
}

fn of_event(handed: &[Receivers], event: usize) -> &[(usize, u32)]
    ensures { result.now ≡ handed_at handed.now event }
{
    match handed.get(event) {
        None => &[],
        Some(receivers) => receivers.as_slice(),
    }
}

/// Makes room for a row of the event.
fn reserve_row(handed: &mut Vec<Receivers>, event: usize) -> Result<(), NoMemory>
    ensures items { handed.new.items ≡ handed.old.items }
    ensures room { OnOk result (event < vec_capacity handed.new) }
    ensures capacity { vec_capacity handed.old ≤ vec_capacity handed.new }
{
    let Some(rows) = event.checked_add(1) else {
        return Err(NoMemory);
    };
    handed.reserve(rows.saturating_sub(handed.len()))?;
    Ok(())
}

/// Rows up to that of the event, the new ones without pairs.
fn fill_rows(alloc: Global, handed: &mut Vec<Receivers>, event: usize)
    requires { event < vec_capacity handed.old }
    ensures same { (e : ℕ) → handed_at handed.new.items e ≡ handed_at handed.old.items e }
    ensures row { event < vec_len handed.new }
    ensures capacity { vec_capacity handed.new ≡ vec_capacity handed.old }
{
    'rows: while handed.len() <= event {
        handed.push_reserved(Receivers::new(Vec::new(alloc)));
    }
}

/// The pairs of both, ascending. Takes no memory.
fn merged(mut next: Vec<(usize, u32)>, handed: &[(usize, u32)]) -> Vec<(usize, u32)>
    requires { vec_len next + length handed.now ≤ vec_capacity next }
    ensures ascending { IsSorted pair_cmp result.items }
    ensures pairs { (p : Pair) → has_pair result.items p
        ≡ (has_pair handed.now p || has_pair next.items p) }
{
    let _room = next.extend_from_slice(handed);
    next.sort_unstable();
    next
}

fn copies(alloc: Global, handed: &[Receivers]) -> Result<Vec<Receivers>, NoMemory>
    ensures { IfOk result (λ v. v.items ≡ handed.now) }
{
    let mut copies = Vec::new(alloc);
    for receivers in handed {
        copies.push(receivers.copy()?)?;
    }
    Ok(copies)
}

impl Marks {
    ghost use Rattle.df_index.specs.Marks.{MarksState};

    pub(crate) fn new(alloc: Global) -> Marks
        ensures { result ≡ record { handed = []; ready = None } }
    {
        Marks {
            handed: Vec::new(alloc),
            next: Vec::new(alloc),
            event: None,
        }
    }

    pub(crate) fn copy(&self) -> Result<Marks, NoMemory>
        ensures { IfOk result (λ copy. copy ≡ self.now) }
    {
        let alloc = *self.next.allocator();
        let mut copy = Marks {
            handed: copies(alloc, self.handed.as_slice())?,
            next: Vec::new(alloc),
            event: None,
        };
        if let Some(event) = self.event {
            copy.make_ready(event, self.next.as_slice())?;
        }
        Ok(copy)
    }

    /// The pairs to which an event was handed.
    pub(crate) fn of_event(&self, event: usize) -> &[(usize, u32)]
        ensures pairs { result.now ≡ handed_at self.now.handed event }
        ensures ascending { IsSorted pair_cmp result.now }
    {
        of_event(self.handed.as_slice(), event)
    }

    /// Nothing waits to be booked any more.
    pub(crate) fn forget(&mut self)
        ensures { self.new ≡ record self.old { ready = None } }
    {
        self.event = None;
    }

    /// Makes all ready to book the receivers of an event.
    pub(crate) fn make_ready(
        &mut self,
        event: usize,
        receivers: &[(usize, u32)],
    ) -> Result<(), NoMemory>
        ensures ok { OnOk result (self.new
            ≡ record self.old { ready = Some (event, receivers.now) }) }
        ensures unchanged { OnErr result (self.new ≡ self.old) }
    {
        if receivers.is_empty() {
            self.next.clear();
            self.event = Some(event);
            return Ok(());
        }
        let marked = of_event(self.handed.as_slice(), event).len();
        reserve_row(&mut self.handed, event)?;
        self.next.reserve(receivers.len().saturating_add(marked))?;
        self.next.clear();
        let _room = self.next.extend_from_slice(receivers);
        self.event = Some(event);
        Ok(())
    }

    /// Marks the event as handed to these, which are ready. Takes no memory.
    pub(crate) fn book(&mut self, event: usize, receivers: Receivers)
        requires { self.old.ready ≡ Some (event, receivers) }
        ensures handed { (e : ℕ) (p : Pair) → was_handed self.new.handed e p
            ≡ (was_handed self.old.handed e p || ((e == event) && has_pair receivers p)) }
        ensures ready { self.new.ready ≡ None }
    {
        self.event = None;
        if receivers.as_slice().is_empty() {
            return;
        }
        let alloc = *self.next.allocator();
        fill_rows(alloc, &mut self.handed, event);
        let handed = of_event(self.handed.as_slice(), event);
        let next = if handed.is_empty() {
            receivers.into_pairs()
        } else {
            mem::replace(&mut self.next, Vec::new(alloc))
        };
        let pairs = merged(next, handed);
        self.handed[event] = Receivers::new(pairs);
    }
}
