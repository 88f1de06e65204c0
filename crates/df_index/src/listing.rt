//! Subscriptions, each listed under the first name of its filter.

ghost use Rattle.std.specs.Prelude.{◌≡◌, ◌↔◌, IsTrue, [], ◌∷◌, ◌++◌, cond, List, ℕ, IsSome, IfOk, OnOk, OnErr};
ghost use Rattle.std.specs.List.{All, flat_map};
ghost use Rattle.std.specs.Str.{bytes_eq};
ghost use Rattle.df_index.specs.Listing.{places_at, places_of};

use crate::{Listed, Subscription};
use df_frozen::Name;
use df_memory::NoMemory;
use std::alloc::Global;
use std::collections::BTreeMap;
use std::marker::Model;

/// Places in a list, in order.
#[derive(Drop)]
pub(crate) struct Places {
    list: Vec<usize>,
}

impl Model for Places {
    ghost use Rattle.std.specs.Prelude.{ℕ, List};

    ghost Value = { List ℕ };

    ghost view = { λ p. p.list.items };
}

impl Places {
    fn one(alloc: Global, place: usize) -> Result<Places, NoMemory>
        ensures { IfOk result (λ places. places ≡ place ∷ []) }
    {
        Ok(Places {
            list: vec![in alloc; place]?,
        })
    }

    fn as_slice(&self) -> &[usize]
        ensures { result.now ≡ self.now }
    {
        self.list.as_slice()
    }

    fn push(&mut self, place: usize) -> Result<(), NoMemory>
        ensures ok { OnOk result (self.new ≡ self.old ++ place ∷ []) }
        ensures unchanged { OnErr result (self.new ≡ self.old) }
    {
        self.list.push(place)?;
        Ok(())
    }
}

/// The places that are listed under a name.
fn at<'a>(table: &'a BTreeMap<Name, Places>, name: &Name) -> &'a [usize]
    ensures { result.now ≡ places_at name.now table.now }
{
    match table.get(name) {
        None => &[],
        Some(places) => places.as_slice(),
    }
}

/// Lists one more place under a name.
fn list_under(
    alloc: Global,
    table: &mut BTreeMap<Name, Places>,
    name: Name,
    place: usize,
) -> Result<(), NoMemory>
    ensures ok { OnOk result ((n : List ℕ) → places_at n table.new
        ≡ cond (bytes_eq name n) (places_at n table.old ++ place ∷ []) (places_at n table.old)) }
    ensures unchanged { OnErr result ((n : List ℕ)
        → places_at n table.new ≡ places_at n table.old) }
{
    if let Some(places) = table.get_mut(&name) {
        places.push(place)?;
        return Ok(());
    }
    let places = Places::one(alloc, place)?;
    table.insert(name, places)?;
    Ok(())
}

/// Subscriptions in the order of their enrolment.
#[derive(Drop)]
pub(crate) struct Listing<F: Listed> {
    subscriptions: Vec<Subscription<F>>,
    table: BTreeMap<Name, Places>,
}

impl<F: Listed> Model for Listing<F> {
    ghost use Rattle.std.specs.Prelude.{List};
    ghost use Rattle.std.specs.Coded.{coded_list};
    ghost use Rattle.df_index.specs.declared.subscription.Subscription.{Subscription};
    ghost use Rattle.df_index.specs.IndexState.{subscription_code};
    ghost use Rattle.df_index.specs.Listing.{IsListing};

    ghost Value = { List (Subscription F) };

    ghost coded = { coded_list (subscription_code F.code) };

    ghost view = { λ l. l.subscriptions.items };

    ghost invariant = { λ l. IsListing F.first_of l.subscriptions.items l.table };
}

impl<F: Listed> Listing<F> {
    ghost use Rattle.df_index.specs.declared.subscription.Subscription.{Subscription};

    pub(crate) fn new(alloc: Global) -> Listing<F>
        ensures { result ≡ [] }
    {
        Listing {
            subscriptions: Vec::new(alloc),
            table: BTreeMap::new(alloc),
        }
    }

    pub(crate) fn as_slice(&self) -> &[Subscription<F>]
        ensures list { result.now ≡ self.now }
        ensures named { All (λ s. IsSome (F.first_of s.filter)) self.now }
    {
        self.subscriptions.as_slice()
    }

    pub(crate) fn is_empty(&self) -> bool
        ensures { IsTrue result ↔ (self.now ≡ []) }
    {
        self.subscriptions.is_empty()
    }

    pub(crate) fn copy(&self) -> Result<Listing<F>, NoMemory>
        ensures { IfOk result (λ copy. copy ≡ self.now) }
    {
        let mut copy = Listing::new(*self.subscriptions.allocator());
        let subscriptions = self.as_slice();
        for subscription in subscriptions {
            copy.enrol(subscription.copy()?)?;
        }
        Ok(copy)
    }

    pub(crate) fn enrol(&mut self, subscription: Subscription<F>) -> Result<(), NoMemory>
        ensures ok { OnOk result (self.new ≡ self.old ++ subscription ∷ []) }
        ensures unchanged { OnErr result (self.new ≡ self.old) }
    {
        let alloc = *self.subscriptions.allocator();
        self.subscriptions.reserve(1)?;
        let name = *subscription.filter.first();
        list_under(alloc, &mut self.table, name, self.subscriptions.len())?;
        self.subscriptions.push_reserved(subscription);
        Ok(())
    }

    /// The places that are listed under a name.
    pub(crate) fn under(&self, name: &Name) -> &[usize]
        ensures { result.now ≡ places_of F.first_of name.now self.now }
    {
        at(&self.table, name)
    }

    /// Puts down the places that are listed under these names.
    pub(crate) fn look_up(&self, names: &[Name], places: &mut Vec<usize>) -> Result<(), NoMemory>
        ensures { OnOk result (places.new.items
            ≡ flat_map (λ name. places_of F.first_of name self.now) names.now) }
    {
        places.clear();
        for name in names {
            places.extend_from_slice(self.under(name))?;
        }
        Ok(())
    }
}
