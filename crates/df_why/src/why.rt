ghost use Rattle.std.specs.Prelude.{◌≡◌, ◌<◌, IfOk, length, reverse, slice_get};
ghost use Rattle.df_machine.specs.Journal.{firsts};
ghost use Rattle.df_replay.specs.Noted.{noted};
ghost use Rattle.df_rules.specs.Legal.{Legal};
ghost use Rattle.df_rules.specs.Start.{rows};
ghost use Rattle.df_why.specs.Grounds.{IsGrounds, at_places};

use crate::links::links_of;
use crate::tracks::track_all;
use crate::walk::walk_back;
use df_memory::NoMemory;
use df_start::Start;
use df_unit::Entry;
use std::alloc::Global;

/// The places on which the entry at a place of a legal journal, its oldest entry first, rests, and
/// its own, in ascending order. The entries there are a legal journal by themselves, which ends
/// with that entry, and in which each unit has the contamination that it has in the journal given.
pub fn grounds(
    alloc: Global,
    start: &Start,
    journal: &[Entry],
    place: usize,
) -> Result<Vec<u64>, NoMemory>
    requires legal { Legal rows (firsts start.now) (reverse journal.now) }
    requires place { place < length journal.now }
    ensures exact { IfOk result (λ places.
        IsGrounds rows (firsts start.now) (reverse journal.now) place places.items) }
    ensures legal { IfOk result (λ places.
        Legal rows (firsts start.now) (reverse (at_places places.items journal.now))) }
    ensures last { IfOk result (λ places.
        slice_get (reverse (at_places places.items journal.now)) 0
        ≡ slice_get journal.now place) }
    ensures noted { IfOk result (λ places.
        noted start.now (reverse (at_places places.items journal.now))
        ≡ at_places places.items (noted start.now (reverse journal.now))) }
{
    let till = &journal[..place + 1];
    let all = track_all(alloc, till)?;
    let links = links_of(alloc, start, till, &all)?;
    let units = all.tables.units.len();
    let events = all.tables.events.len();
    let picked = walk_back(alloc, links.as_slice(), units, events)?;
    let places = ascending(alloc, picked.as_slice())?;
    Ok(places)
}

/// The places, of which the last one stood first.
fn ascending(alloc: Global, picked: &[usize]) -> Result<Vec<u64>, NoMemory>
    ensures { IfOk result (λ places. places.items ≡ reverse picked.now) }
{
    let mut places = Vec::new(alloc);
    for place in picked {
        places.push(*place as u64)?;
    }
    places.reverse();
    Ok(places)
}
