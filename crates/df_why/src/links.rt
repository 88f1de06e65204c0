//! The links of entries.

ghost use Rattle.std.specs.Prelude.{◌≡◌, ◌<◌, ℕ, IfOk, length, reverse};
ghost use Rattle.std.specs.BTreeMap.{btree_map_len};
ghost use Rattle.df_machine.specs.Journal.{firsts};
ghost use Rattle.df_rules.specs.Legal.{Legal};
ghost use Rattle.df_rules.specs.Start.{rows};
ghost use Rattle.df_why.specs.code.Links.{found_at, link_of};
ghost use Rattle.df_why.specs.code.Tracks.{AreNumbered, AreTracked, track_at};
ghost use Rattle.df_why.specs.code.Walk.{AreWithin, IsKnown, link_at};

use crate::firsts::where_made;
use crate::found::Found;
use crate::queues::find;
use crate::tracks::{Track, Tracked};
use crate::walk::Link;
use df_memory::NoMemory;
use df_start::Start;
use df_unit::Entry;
use std::alloc::Global;

fn link_from(made: &[Option<usize>], track: &Track, found: &Found) -> Link
    ensures { result ≡ link_of made.now track.now found.now }
{
    Link {
        actor: track.actor,
        is_there: track.is_there,
        event: track.event,
        next: if track.is_met { found.next } else { None },
        made: match track.origin {
            Some(origin) if origin < made.len() => made[origin],
            _ => None,
        },
        first: if track.is_instance { found.first } else { None },
    }
}

fn all_links(
    alloc: Global,
    made: &[Option<usize>],
    tracks: &[Track],
    finds: &[Found],
) -> Result<Vec<Link>, NoMemory>
    requires { length finds.now ≡ length tracks.now }
    ensures count { IfOk result (λ links. length links.items ≡ length tracks.now) }
    ensures each { IfOk result (λ links. (p : ℕ) → p < length tracks.now →
        link_at links.items p ≡ link_of made.now (track_at tracks.now p) (found_at finds.now p)) }
{
    let mut links = Vec::new(alloc);
    for place in 0..tracks.len() {
        links.push(link_from(made, &tracks[place], &finds[place]))?;
    }
    Ok(links)
}

/// The links of a journal's entries, which tell which of them leads to which.
pub(crate) fn links_of(
    alloc: Global,
    start: &Start,
    journal: &[Entry],
    all: &Tracked,
) -> Result<Vec<Link>, NoMemory>
    requires legal { Legal rows (firsts start.now) (reverse journal.now) }
    requires numbered { AreNumbered all.now.tables }
    requires tracked { AreTracked all.now.tables all.now.tracks.items journal.now }
    ensures count { IfOk result (λ links. length links.items ≡ length journal.now) }
    ensures known { IfOk result (λ links.
        IsKnown rows (firsts start.now) links.items (reverse journal.now)) }
    ensures within { IfOk result (λ links. AreWithin (btree_map_len all.now.tables.units)
        (btree_map_len all.now.tables.events) links.items) }
{
    let tracks = all.tracks.as_slice();
    let finds = find(alloc, start, journal, all)?;
    let made = where_made(alloc, all.tables.origins.len(), tracks)?;
    let links = all_links(alloc, made.as_slice(), tracks, finds.as_slice())?;
    Ok(links)
}
