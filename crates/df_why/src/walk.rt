//! From the last entry of a journal back to those on which it rests, by numbers and places alone.

ghost use Rattle.std.specs.Prelude.{◌≡◌, ◌-◌, ◌<◌, ◌||◌, [], ℕ, false, IfOk, IfSome, get_or, length};
ghost use Rattle.df_why.specs.code.Walk.{AreWithin, HasSizes, IsWithin, SameSizes, StandsFor, add_places, add_units, blank, flag_at, link_at, points, walked, wants};

use df_memory::NoMemory;
use std::alloc::Global;

/// What an entry rests on: its unit and whether that exists, its commit's event, the place where
/// the delivery arose that it was to take, and where its unit's subscription or the unit itself was
/// made and where the unit began.
#[derive(Clone, Copy, Drop)]
pub(crate) struct Link {
    pub actor: Option<usize>,
    pub is_there: bool,
    pub event: Option<usize>,
    pub next: Option<usize>,
    pub made: Option<usize>,
    pub first: Option<usize>,
}

/// What is wanted of the entries that the walk has before it: at places, of units, and with commits
/// on events.
#[derive(Drop)]
pub(crate) struct Wanted {
    places: Vec<bool>,
    units: Vec<bool>,
    events: Vec<bool>,
}

/// Whether the flag of this number is up, if there is a number.
fn flag(flags: &[bool], number: Option<usize>) -> bool
    requires { IfSome number (λ k. k < length flags.now) }
    ensures { result ≡ flag_at flags.now number }
{
    match number {
        Some(number) => flags[number],
        None => false,
    }
}

/// Puts the flag of this number up, if there is a number.
fn raise(flags: &mut [bool], number: Option<usize>)
    requires { IfSome number (λ k. k < length flags.old) }
    ensures size { length flags.new ≡ length flags.old }
    ensures flags { (k : ℕ) → get_or flags.new k false
        ≡ (points number k || get_or flags.old k false) }
{
    if let Some(number) = number {
        flags[number] = true;
    }
}

fn flags(alloc: Global, count: usize) -> Result<Vec<bool>, NoMemory>
    ensures size { IfOk result (λ f. length f.items ≡ count) }
    ensures down { IfOk result (λ f. (k : ℕ) → get_or f.items k false ≡ false) }
{
    let mut flags = Vec::new(alloc);
    flags.resize(count, false)?;
    Ok(flags)
}

/// Whether the entry at a place is wanted.
fn is_wanted(wanted: &Wanted, place: usize, link: &Link) -> bool
    requires place { place < length wanted.now.places.items }
    requires within { IsWithin wanted.now link.now }
    ensures { result ≡ wants wanted.now place link.now }
{
    flag(wanted.places.as_slice(), Some(place))
        || flag(wanted.units.as_slice(), link.actor)
        || flag(wanted.events.as_slice(), link.event)
}

/// Wants what an entry rests on.
fn add(wanted: &mut Wanted, link: &Link)
    requires { IsWithin wanted.old link.now }
    ensures sizes { SameSizes wanted.old wanted.new }
    ensures places { (k : ℕ) → get_or wanted.new.places.items k false
        ≡ (add_places link.now k || get_or wanted.old.places.items k false) }
    ensures units { (k : ℕ) → get_or wanted.new.units.items k false
        ≡ (add_units link.now k || get_or wanted.old.units.items k false) }
    ensures events { (k : ℕ) → get_or wanted.new.events.items k false
        ≡ (points link.now.event k || get_or wanted.old.events.items k false) }
{
    raise(wanted.places.as_mut_slice(), link.next);
    raise(wanted.events.as_mut_slice(), link.event);
    if link.is_there {
        raise(wanted.places.as_mut_slice(), link.made);
        raise(wanted.places.as_mut_slice(), link.first);
        raise(wanted.units.as_mut_slice(), link.actor);
    }
}

/// Nothing is wanted but one place.
fn begin(
    alloc: Global,
    places: usize,
    units: usize,
    events: usize,
    last: usize,
) -> Result<Wanted, NoMemory>
    requires { last < places }
    ensures sizes { IfOk result (λ w. HasSizes places units events w) }
    ensures wanted { IfOk result (λ w. StandsFor (λ q. blank) last [] w) }
{
    let mut places = flags(alloc, places)?;
    let units = flags(alloc, units)?;
    let events = flags(alloc, events)?;
    places[last] = true;
    Ok(Wanted {
        places,
        units,
        events,
    })
}

/// The places of the last entry and of those to which it leads, directly or by others, the last
/// one first.
pub(crate) fn walk_back(
    alloc: Global,
    links: &[Link],
    units: usize,
    events: usize,
) -> Result<Vec<usize>, NoMemory>
    requires some { 0 < length links.now }
    requires within { AreWithin units events links.now }
    ensures { IfOk result (λ places. places.items
        ≡ walked (link_at links.now) (length links.now - 1) (length links.now)) }
{
    let last = links.len() - 1;
    let mut wanted = begin(alloc, links.len(), units, events, last)?;
    let mut picked = Vec::new(alloc);
    for step in 0..links.len() {
        let place = last - step;
        let link = links[place];
        if is_wanted(&wanted, place, &link) {
            picked.push(place)?;
            add(&mut wanted, &link);
        }
    }
    Ok(picked)
}
