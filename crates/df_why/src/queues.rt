//! Where deliveries arise, as a machine goes over a journal.

ghost use Rattle.std.specs.Prelude.{◌≡◌, ◌<◌, ℕ, [], IfOk, OnOk, get_or, length, replicate, reverse};
ghost use Rattle.std.specs.BTreeMap.{get};
ghost use Rattle.df_machine.specs.Journal.{firsts};
ghost use Rattle.df_replay.specs.Replay.{replayed};
ghost use Rattle.df_rules.specs.Legal.{Legal};
ghost use Rattle.df_rules.specs.Start.{rows};
ghost use Rattle.df_unit.specs.UnitOrder.{unit_cmp};
ghost use Rattle.df_unit.specs.declared.entry.Entry.{Entry};
ghost use Rattle.df_why.specs.code.Links.{AreFound};
ghost use Rattle.df_why.specs.code.Queues.{AreBrought, IsStepped, IsTakenBelow, all_grown, found_in, grown_at, taken_at};
ghost use Rattle.df_why.specs.code.Tracks.{AreNumbered, AreTracked, track_at};

use crate::found::Found;
use crate::names::commit_of;
use crate::queue::Queue;
use crate::tracks::{Track, Tracked};
use df_machine::Core;
use df_memory::NoMemory;
use df_replay::{begin, replay};
use df_start::Start;
use df_unit::{Entry, UnitName};
use std::alloc::Global;
use std::collections::BTreeMap;

fn no_queues(alloc: Global, count: usize) -> Result<Vec<Queue>, NoMemory>
    ensures { IfOk result (λ queues.
        queues.items ≡ replicate count (record { taken = 0; places = [] })) }
{
    let mut queues = Vec::new(alloc);
    for _ in 0..count {
        queues.push(Queue::new(alloc))?;
    }
    Ok(queues)
}

/// Extends the queue of a unit, if it has a number.
fn extend_at(
    core: &Core,
    queues: &mut [Queue],
    unit: &UnitName,
    number: Option<usize>,
    place: usize,
) -> Result<(), NoMemory>
    ensures { OnOk result (queues.new ≡ grown_at core.now unit.now number place queues.old) }
{
    if let Some(number) = number {
        if number < queues.len() {
            queues[number].extend(core.left(unit), place)?;
        }
    }
    Ok(())
}

fn number_of(units: &BTreeMap<UnitName, usize>, unit: &UnitName) -> Option<usize>
    ensures { result ≡ get unit_cmp units.now unit.now }
{
    units.get(unit).copied()
}

/// Extends the queues of these units.
fn extend_all(
    core: &Core,
    units: &BTreeMap<UnitName, usize>,
    queues: &mut [Queue],
    names: &[UnitName],
    place: usize,
) -> Result<(), NoMemory>
    ensures { OnOk result (queues.new
        ≡ all_grown core.now units.now names.now place queues.old) }
{
    for name in names {
        extend_at(core, queues, name, number_of(units, name), place)?;
    }
    Ok(())
}

/// What is known for an entry.
fn found(queues: &[Queue], track: &Track) -> Found
    ensures { result ≡ found_in queues.now track.now.actor }
{
    match track.actor {
        Some(number) if number < queues.len() => Found {
            next: queues[number].next(),
            first: queues[number].first(),
        },
        _ => Found {
            next: None,
            first: None,
        },
    }
}

/// Counts what an entry is handed.
fn take(queues: &mut [Queue], track: &Track, most: usize)
    requires { IsTakenBelow most track.now.actor queues.old }
    ensures { queues.new ≡ taken_at track.now queues.old }
{
    if let Some(number) = track.actor {
        if track.is_given && number < queues.len() {
            queues[number].take(most);
        }
    }
}

/// The units to which an entry brings a delivery.
fn receivers(alloc: Global, core: &mut Core, entry: &Entry) -> Result<Vec<UnitName>, NoMemory>
    ensures same { core.new ≡ core.old }
    ensures brought { IfOk result (λ names. AreBrought core.old entry.now names.items) }
{
    match commit_of(entry) {
        Some(commit) => core.receivers(commit),
        None => Ok(Vec::new(alloc)),
    }
}

/// The machine takes an entry in. What the entry brings arose at its place.
fn step(
    alloc: Global,
    core: &mut Core,
    queues: &mut [Queue],
    journal: &[Entry],
    all: &Tracked,
    place: usize,
) -> Result<(), NoMemory>
    requires place { place < length journal.now }
    requires track { place < length all.now.tracks.items }
    requires taken { IsTakenBelow (length journal.now)
        (track_at all.now.tracks.items place).actor queues.old }
    ensures core { (d : Entry) →
        OnOk result (core.new ≡ replayed core.old (get_or journal.now place d)) }
    ensures queues { (d : Entry) → OnOk result (IsStepped core.old core.new
        (get_or journal.now place d) all.now.tables.units (track_at all.now.tracks.items place)
        place queues.old queues.new) }
{
    let names = receivers(alloc, core, &journal[place])?;
    replay(core, &journal[place])?;
    take(queues, &all.tracks[place], journal.len());
    extend_all(core, &all.tables.units, queues, names.as_slice(), place)
}

/// Where the delivery arose that each entry's unit takes next, and where its first one arose.
pub(crate) fn find(
    alloc: Global,
    start: &Start,
    journal: &[Entry],
    all: &Tracked,
) -> Result<Vec<Found>, NoMemory>
    requires legal { Legal rows (firsts start.now) (reverse journal.now) }
    requires numbered { AreNumbered all.now.tables }
    requires tracked { AreTracked all.now.tables all.now.tracks.items journal.now }
    ensures count { IfOk result (λ finds. length finds.items ≡ length journal.now) }
    ensures found { IfOk result (λ finds.
        AreFound rows (firsts start.now) (reverse journal.now) finds.items) }
{
    let mut core = begin(alloc, start)?;
    let mut queues = no_queues(alloc, all.tables.units.len())?;
    let tracks = all.tracks.as_slice();
    let mut finds = Vec::new(alloc);
    for place in 0..journal.len() {
        finds.push(found(queues.as_slice(), &tracks[place]))?;
        let of = queues.as_mut_slice();
        step(alloc, &mut core, of, journal, all, place)?;
    }
    Ok(finds)
}
