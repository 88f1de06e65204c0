//! The parts that each event has.

ghost use Rattle.std.specs.Prelude.{◌≡◌, ◌<◌, ◌∷◌, [], ◌++◌, if◌then◌else◌, length, IfOk, OnOk, OnErr, Some};
ghost use Rattle.df_unit.specs.Name.{same_event};
ghost use Rattle.df_unit.specs.declared.name.EventName.{EventName};
ghost use Rattle.df_tables.specs.EventPlaces.{place_at, root_number, same_key};
ghost use Rattle.df_tables.specs.Events.{IsOpened, blank, event_place, root_event};
ghost use Rattle.df_tables.specs.Table.{parts_of};
ghost use Rattle.df_tables.specs.declared.event_places.Key.{Key};

use crate::event_places::{EventPlaces, Key, key_of, root_number};
use crate::row_name::RowName;
use df_memory::NoMemory;
use df_part::Contents;
use df_unit::EventName;
use std::alloc::Global;
use std::marker::Model;

/// The parts of an event.
#[derive(Drop)]
pub struct EventRow {
    pub event: RowName,
    pub contents: Contents,
}

/// Events, each with its parts.
#[derive(Drop)]
pub struct Events {
    rows: Vec<EventRow>,
    places: EventPlaces,
}

impl Model for Events {
    ghost use Rattle.std.specs.Prelude.{List};
    ghost use Rattle.std.specs.Coded.{coded_list};
    ghost use Rattle.df_tables.specs.contracts.events.EventRow as row;
    ghost use Rattle.df_tables.specs.declared.events.EventRow.{EventRow};
    ghost use Rattle.df_tables.specs.Events.{IsPlaced};

    ghost Value = { List EventRow };

    ghost coded = { coded_list row.the_row.coded };

    ghost view = { λ e. e.rows.items };

    ghost invariant = { λ e. IsPlaced e.rows.items e.places };
}

/// One more row, without parts, of a root's event.
fn add_numbered(
    alloc: Global,
    rows: &mut Vec<EventRow>,
    places: &mut EventPlaces,
    root: u32,
    number: u32,
) -> Result<usize, NoMemory>
    ensures place { IfOk result (λ k. k ≡ length rows.old.items) }
    ensures rows { OnOk result (rows.new.items
        ≡ rows.old.items ++ blank (root_event root number) ∷ []) }
    ensures places { OnOk result ((q : Key) → place_at places.new q
        ≡ (if same_key (Key.Numbered root number) q then Some (length rows.old.items)
        else place_at places.old q)) }
    ensures same_rows { OnErr result (rows.new.items ≡ rows.old.items) }
    ensures same_places { OnErr result ((q : Key) → place_at places.new q
        ≡ place_at places.old q) }
{
    rows.reserve(1)?;
    let place = rows.len();
    places.put_numbered(root, number, place)?;
    rows.push_reserved(EventRow {
        event: RowName::numbered(root, number),
        contents: Contents::new(alloc),
    });
    Ok(place)
}

/// One more row, without parts.
fn add_row(
    alloc: Global,
    rows: &mut Vec<EventRow>,
    places: &mut EventPlaces,
    key: Key,
    event: &EventName,
) -> Result<usize, NoMemory>
    ensures place { IfOk result (λ k. k ≡ length rows.old.items) }
    ensures rows { OnOk result (rows.new.items ≡ rows.old.items ++ blank event.now ∷ []) }
    ensures places { OnOk result ((q : Key) → place_at places.new q
        ≡ (if same_key key q then Some (length rows.old.items) else place_at places.old q)) }
    ensures same_rows { OnErr result (rows.new.items ≡ rows.old.items) }
    ensures same_places { OnErr result ((q : Key) → place_at places.new q
        ≡ place_at places.old q) }
{
    rows.reserve(1)?;
    let event = RowName::of(alloc, event)?;
    let place = rows.len();
    places.put(key, place)?;
    rows.push_reserved(EventRow {
        event,
        contents: Contents::new(alloc),
    });
    Ok(place)
}

impl Events {
    /// None. Takes no memory.
    pub fn new(alloc: Global) -> Events
        ensures { result ≡ [] }
    {
        Events {
            rows: Vec::new(alloc),
            places: EventPlaces::new(alloc),
        }
    }

    /// The place of the row of a root's event.
    fn open_numbered(&mut self, root: u32, event: &EventName) -> Result<usize, NoMemory>
        requires { root_number event.now.unit ≡ Some root }
        ensures place { IfOk result (λ k. event_place event.now self.new ≡ Some k) }
        ensures opened { OnOk result (IsOpened event.now self.old self.new) }
        ensures unchanged { OnErr result (self.new ≡ self.old) }
    {
        if let Some(place) = self.places.find_numbered(root, event.number) {
            return Ok(place);
        }
        let alloc = *self.rows.allocator();
        let (rows, places) = (&mut self.rows, &mut self.places);
        let place = add_numbered(alloc, rows, places, root, event.number)?;
        Ok(place)
    }

    /// The place of the row of an event, by its key.
    #[inline(never)]
    fn open_keyed(&mut self, event: &EventName) -> Result<usize, NoMemory>
        ensures place { IfOk result (λ k. event_place event.now self.new ≡ Some k) }
        ensures opened { OnOk result (IsOpened event.now self.old self.new) }
        ensures unchanged { OnErr result (self.new ≡ self.old) }
    {
        let key = key_of(event)?;
        if let Some(place) = self.places.find(&key) {
            return Ok(place);
        }
        let alloc = *self.rows.allocator();
        let place = add_row(alloc, &mut self.rows, &mut self.places, key, event)?;
        Ok(place)
    }

    /// The place of an event's row. Where the event has none, one is made without parts.
    pub fn open(&mut self, event: &EventName) -> Result<usize, NoMemory>
        ensures place { IfOk result (λ k. event_place event.now self.new ≡ Some k) }
        ensures opened { OnOk result (IsOpened event.now self.old self.new) }
        ensures unchanged { OnErr result (self.new ≡ self.old) }
    {
        match root_number(&event.unit) {
            Some(root) => self.open_numbered(root, event),
            None => self.open_keyed(event),
        }
    }

    /// The parts of the event whose row has this place.
    pub fn contents(&self, place: usize) -> &Contents
        requires { place < length self.now }
        ensures { (event : EventName) → event_place event self.now ≡ Some place →
            result.now ≡ parts_of event self.now }
    {
        &self.rows[place].contents
    }

    /// Gives the event whose row has this place other parts. Takes no memory.
    pub fn set(&mut self, place: usize, contents: Contents)
        requires { place < length self.old }
        ensures length { length self.new ≡ length self.old }
        ensures places { (event : EventName) → event_place event self.new
            ≡ event_place event self.old }
        ensures parts { (event : EventName) → event_place event self.old ≡ Some place →
            (e : EventName) → parts_of e self.new
            ≡ (if same_event event e then contents else parts_of e self.old) }
    {
        self.rows[place].contents = contents;
    }
}
