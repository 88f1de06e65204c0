//! What of each entry counts for others, by numbers.

ghost use Rattle.std.specs.Prelude.{◌≡◌, IfOk, OnOk};
ghost use Rattle.df_why.specs.Grounds.{is_met};
ghost use Rattle.df_why.specs.code.Tracks.{AreNumbered, AreTracked, IsTrack, KeepNumbers, is_given, is_instance_in, is_met_in, is_there_in};

use crate::names::{actor_of, event_of, made_of, origin_in};
use crate::numbers::number;
use df_memory::NoMemory;
use df_unit::{Call, Effect, Entry, Reply, UnitName};
use std::alloc::Global;
use std::collections::BTreeMap;

/// An entry by numbers.
#[derive(Clone, Copy, Drop)]
pub(crate) struct Track {
    /// The entry's unit.
    pub actor: Option<usize>,
    /// Whether that exists.
    pub is_there: bool,
    /// Whether that is an instance.
    pub is_instance: bool,
    /// What must have been made before the unit begins.
    pub origin: Option<usize>,
    /// What the entry makes.
    pub makes: Option<usize>,
    /// The event of its commit.
    pub event: Option<usize>,
    /// Whether it is a get for which a delivery was there.
    pub is_met: bool,
    /// Whether it is handed an event.
    pub is_given: bool,
}

/// The numbers of units, events, and of what must be made before units begin.
#[derive(Drop)]
pub(crate) struct Tables {
    pub units: BTreeMap<UnitName, usize>,
    pub events: BTreeMap<(u32, UnitName), usize>,
    pub origins: BTreeMap<UnitName, usize>,
}

/// A journal's entries by numbers, the oldest first.
#[derive(Drop)]
pub(crate) struct Tracked {
    pub tables: Tables,
    pub tracks: Vec<Track>,
}

fn is_met(call: &Call, reply: &Reply) -> bool
    ensures { result ≡ is_met call.now reply.now }
{
    match (call, reply) {
        (Call::Get, Reply::Event { .. }) => true,
        (Call::Get, Reply::TooManyHandles) => true,
        _ => false,
    }
}

fn is_met_in(entry: &Entry) -> bool
    ensures { result ≡ is_met_in entry.now }
{
    match entry {
        Entry::Done { call, reply, .. } => is_met(call, reply),
        Entry::Emitted(_) => false,
    }
}

fn is_there_in(entry: &Entry) -> bool
    ensures { result ≡ is_there_in entry.now }
{
    match entry {
        Entry::Done {
            reply: Reply::NoSuchUnit,
            ..
        } => false,
        Entry::Done { .. } => true,
        Entry::Emitted(_) => false,
    }
}

fn is_instance_in(entry: &Entry) -> bool
    ensures { result ≡ is_instance_in entry.now }
{
    match entry {
        Entry::Done {
            actor: UnitName::Managed { .. },
            ..
        } => true,
        _ => false,
    }
}

fn is_given(entry: &Entry) -> bool
    ensures { result ≡ is_given entry.now }
{
    match entry {
        Entry::Done {
            effect: Effect::Given(_),
            ..
        } => true,
        _ => false,
    }
}

/// The entry by numbers. Names without a number get one.
fn by_numbers(alloc: Global, tables: &mut Tables, entry: &Entry) -> Result<Track, NoMemory>
    requires { AreNumbered tables.old }
    ensures numbered { OnOk result (AreNumbered tables.new) }
    ensures kept { OnOk result (KeepNumbers tables.old tables.new) }
    ensures track { IfOk result (λ t. IsTrack tables.new entry.now t) }
{
    let actor = number(&mut tables.units, actor_of(entry)?)?;
    let event = number(&mut tables.events, event_of(entry)?)?;
    let origin = number(&mut tables.origins, origin_in(alloc, entry)?)?;
    let makes = number(&mut tables.origins, made_of(alloc, entry)?)?;
    Ok(Track {
        actor,
        is_there: is_there_in(entry),
        is_instance: is_instance_in(entry),
        origin,
        makes,
        event,
        is_met: is_met_in(entry),
        is_given: is_given(entry),
    })
}

fn no_numbers(alloc: Global) -> Tables
    ensures { AreNumbered result }
{
    Tables {
        units: BTreeMap::new(alloc),
        events: BTreeMap::new(alloc),
        origins: BTreeMap::new(alloc),
    }
}

/// The entries by numbers.
pub(crate) fn track_all(alloc: Global, journal: &[Entry]) -> Result<Tracked, NoMemory>
    ensures numbered { IfOk result (λ all. AreNumbered all.tables) }
    ensures tracked { IfOk result (λ all.
        AreTracked all.tables all.tracks.items journal.now) }
{
    let mut tables = no_numbers(alloc);
    let mut tracks = Vec::new(alloc);
    for entry in journal {
        tracks.push(by_numbers(alloc, &mut tables, entry)?)?;
    }
    Ok(Tracked { tables, tracks })
}
