//! The index of subscriptions.

ghost use Rattle.std.specs.Prelude.{◌≡◌, ◌↔◌, ℕ, ◌+◌, ◌<◌, ◌≤◌, ◌==◌, ◌&&◌, ◌||◌, [], ◌∷◌, ◌++◌, Some, None, length, OnOk, OnErr, IfOk};
ghost use Rattle.std.specs.List.{All, Contains};
ghost use Rattle.std.specs.List.Sorted.{IsSorted, IsStrictlySortedBy};
ghost use Rattle.df_index.specs.Due.{Pair, has_pair, pair_cmp};
ghost use Rattle.df_index.specs.IndexState.{IsReceiver, was_handed};
ghost use Rattle.df_index.specs.Listing.{AreLookedUp, listed_under, names_of};
ghost use Rattle.df_index.specs.Occasion.{IsDueOn};

use crate::due::{Occasion, due};
use crate::listing::Listing;
use crate::marks::Marks;
use crate::names::list_names;
use crate::{Listed, Receivers, Subscription, Tester};
use df_frozen::Name;
use df_label::Label;
use df_memory::NoMemory;
use df_part::{Contents, Edit, PartRef};
use std::alloc::Global;
use std::marker::Model;

/// The places of the subscriptions that are listed under the names of parts. Where there are
/// several parts, it puts these down in `names` and `places`.
fn looked_up<'a, F: Listed>(
    listing: &'a Listing<F>,
    parts: &[PartRef],
    names: &mut Vec<Name>,
    places: &'a mut Vec<usize>,
) -> Result<&'a [usize], NoMemory>
    ensures { IfOk result (λ found. AreLookedUp F.first_of parts.now listing.now found.now) }
{
    if let [part] = parts {
        return Ok(listing.under(&part.part().name));
    }
    list_names(parts, names)?;
    listing.look_up(names.as_slice(), places)?;
    Ok(places.as_slice())
}

/// The pairs of the subscriptions to which the event is to be handed, ascending.
fn found<F: Listed, T: Tester<F>>(
    listing: &Listing<F>,
    occasion: &Occasion<'_>,
    names: &mut Vec<Name>,
    places: &mut Vec<usize>,
    tester: &mut T,
) -> Result<Vec<(usize, u32)>, NoMemory>
    requires labelled { All (λ s. s.unit < length occasion.now.labels.now) listing.now }
    requires ascending { IsSorted pair_cmp occasion.now.handed.now }
    ensures ascending { IfOk result (λ v. IsStrictlySortedBy pair_cmp v.items) }
    ensures due { IfOk result (λ v. (p : Pair) → Contains v.items p
        ↔ IsDueOn F.matches occasion.now listing.now p) }
    ensures bound { T.count tester.new ≤ T.count tester.old
        + listed_under F.first_of (names_of occasion.now.contents.now) listing.now }
{
    let alloc = *names.allocator();
    if listing.is_empty() {
        return Ok(Vec::new(alloc));
    }
    let places = looked_up(listing, occasion.contents.parts(), names, places)?;
    let mut found = due(alloc, occasion, listing.as_slice(), places, tester)?;
    found.sort_unstable();
    found.dedup();
    Ok(found)
}

/// Subscriptions, with any type of filter, and to whom each event was handed. Units and events
/// are named by their places in lists of the caller.
#[derive(Drop)]
pub struct Index<F: Listed> {
    listing: Listing<F>,
    marks: Marks,
    names: Vec<Name>,
    places: Vec<usize>,
}

impl<F: Listed> Model for Index<F> {
    ghost use Rattle.df_index.specs.IndexState.{IndexState, index_code};

    ghost Value = { IndexState F };

    ghost coded = { index_code F.code };

    ghost view = { λ x. record {
      enrolled = x.listing;
      handed = x.marks.handed;
      ready = x.marks.ready;
    } };
}

impl<F: Listed> Index<F> {
    ghost use Rattle.df_index.specs.IndexState.{IndexState};

    /// Takes no memory.
    pub fn new(alloc: Global) -> Index<F>
        ensures { result ≡ record { enrolled = []; handed = []; ready = None } }
    {
        Index {
            listing: Listing::new(alloc),
            marks: Marks::new(alloc),
            names: Vec::new(alloc),
            places: Vec::new(alloc),
        }
    }

    pub fn copy(&self) -> Result<Index<F>, NoMemory>
        ensures { IfOk result (λ copy. copy ≡ self.now) }
    {
        let alloc = *self.names.allocator();
        Ok(Index {
            listing: self.listing.copy()?,
            marks: self.marks.copy()?,
            names: Vec::new(alloc),
            places: Vec::new(alloc),
        })
    }

    /// Enrols a subscription of a unit, under the first name of its filter.
    pub fn enrol(&mut self, unit: usize, sub: u32, filter: F) -> Result<(), NoMemory>
        ensures ok { OnOk result (self.new ≡ record self.old {
          enrolled = self.old.enrolled ++ record { unit = unit; sub = sub; filter = filter } ∷ [];
          ready = None;
        }) }
        ensures unchanged { OnErr result (self.new ≡ self.old) }
    {
        self.listing.enrol(Subscription { unit, sub, filter })?;
        self.marks.forget();
        Ok(())
    }

    /// To which subscriptions an event is to be handed at a commit with this edit, where these
    /// are the labels of the units and `contents` are those after the edit.
    pub fn receivers<T: Tester<F>>(
        &mut self,
        labels: &[Label],
        event: usize,
        contents: &Contents,
        edit: &Edit,
        tester: &mut T,
    ) -> Result<Receivers, NoMemory>
        requires { All (λ s. s.unit < length labels.now) self.old.enrolled }
        ensures ascending { IfOk result (λ pairs. IsStrictlySortedBy pair_cmp pairs) }
        ensures due { IfOk result (λ pairs. (p : Pair) → Contains pairs p
            ↔ IsReceiver F.matches labels.now self.old event contents.now edit.now p) }

        // At most as many tests as subscriptions are listed under the names of the contents.
        ensures bound { T.count tester.new ≤ T.count tester.old
            + listed_under F.first_of (names_of contents.now) self.old.enrolled }

        ensures ready { IfOk result (λ pairs. self.new
            ≡ record self.old { ready = Some (event, pairs) }) }
        ensures unchanged { OnErr result (self.new ≡ self.old) }
    {
        let occasion = Occasion {
            labels,
            handed: self.marks.of_event(event),
            contents,
            edit,
        };
        let found = found(
            &self.listing,
            &occasion,
            &mut self.names,
            &mut self.places,
            tester,
        )?;
        self.marks.make_ready(event, found.as_slice())?;
        Ok(Receivers::new(found))
    }

    /// Marks the event as handed to its receivers. Takes no memory: `receivers` made the room.
    pub fn book(&mut self, event: usize, r: Receivers)
        requires { self.old.ready ≡ Some (event, r) }
        ensures enrolled { self.new.enrolled ≡ self.old.enrolled }
        ensures handed { (e : ℕ) (p : Pair) → was_handed self.new.handed e p
            ≡ (was_handed self.old.handed e p || ((e == event) && has_pair r p)) }
        ensures ready { self.new.ready ≡ None }
    {
        self.marks.book(event, r);
    }
}
