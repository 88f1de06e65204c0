//! The table of managed subscriptions.

ghost use Rattle.std.specs.Prelude.{◌≡◌, ◌↔◌, ◌<◌, ℕ, [], ◌∷◌, ◌++◌, List, Some, length, slice_get, IsTrue, IfOk, OnOk, OnErr};
ghost use Rattle.std.specs.List.{All, flat_map};
ghost use Rattle.std.specs.List.Sorted.{IsStrictlySortedBy};
ghost use Rattle.std.specs.Ordering.{nat_cmp};
ghost use Rattle.df_index.specs.Listing.{names_of};
ghost use Rattle.df_part.specs.Contents.{apply};
ghost use Rattle.df_part.specs.declared.part.Part.{Part};
ghost use Rattle.df_local.specs.Births.{IsAccounted, record_of};
ghost use Rattle.df_managed.specs.Contaminations.{EndsWith};
ghost use Rattle.df_instances.specs.Chosen.{AreChosen, HasBase, instance_cmp};
ghost use Rattle.df_instances.specs.Marks.{has_place};
ghost use Rattle.df_instances.specs.code.Listing.{is_listed_at, places_named};

use crate::chosen::chosen_at;
use crate::names::{first_name, names};
use crate::places::{Places, at, list_under};
use crate::{Instances, ManagedSubscription};
use df_frozen::Name;
use df_local::Fixed;
use df_memory::NoMemory;
use df_part::{Contents, Edit};
use df_unit::Path;
use std::alloc::Global;
use std::collections::BTreeMap;
use std::marker::Model;

/// The managed subscriptions that units made, the oldest first.
#[derive(Drop)]
pub struct Managed {
    subscriptions: Vec<ManagedSubscription>,
    table: BTreeMap<Name, Places>,
}

impl Model for Managed {
    ghost use Rattle.std.specs.Prelude.{List};
    ghost use Rattle.std.specs.Coded.{coded_list};
    ghost use Rattle.df_instances.specs.declared.subscription.ManagedSubscription.{ManagedSubscription};
    ghost use Rattle.df_instances.specs.contracts.subscription.ManagedSubscription as subscription;
    ghost use Rattle.df_instances.specs.code.Listing.{IsManaged};

    ghost Value = { List ManagedSubscription };

    ghost coded = { coded_list subscription.the_row.coded };

    ghost view = { λ m. m.subscriptions.items };

    ghost invariant = { λ m. IsManaged m.subscriptions.items m.table };
}

impl Managed {
    ghost use Rattle.df_instances.specs.declared.subscription.ManagedSubscription.{ManagedSubscription};

    /// Takes no memory.
    pub fn new(alloc: Global) -> Managed
        ensures { result ≡ [] }
    {
        Managed {
            subscriptions: Vec::new(alloc),
            table: BTreeMap::new(alloc),
        }
    }

    /// The subscriptions. Each has an owner, and what it keeps of it accounts for all tags.
    pub fn as_slice(&self) -> &[ManagedSubscription]
        ensures list { result.now ≡ self.now }
        ensures owned { All (λ m. 0 < length m.owner) self.now }
        ensures accounted { All (λ m. IsAccounted (record_of m.fixed)) self.now }
    {
        self.subscriptions.as_slice()
    }

    pub fn len(&self) -> usize
        ensures { result ≡ length self.now }
    {
        self.subscriptions.len()
    }

    pub fn is_empty(&self) -> bool
        ensures { IsTrue result ↔ (self.now ≡ []) }
    {
        self.subscriptions.is_empty()
    }

    pub fn get(&self, place: usize) -> &ManagedSubscription
        requires { place < length self.now }
        ensures value { slice_get self.now place ≡ Some result.now }
        ensures owned { 0 < length result.now.owner }
        ensures accounted { IsAccounted (record_of result.now.fixed) }
    {
        &self.subscriptions[place]
    }

    /// Enrols one more subscription, under the name of the first clause of its filter.
    pub fn enrol(&mut self, owner: Path, sub: u32, fixed: Fixed) -> Result<(), NoMemory>
        requires owned { 0 < length owner }
        requires accounted { IsAccounted (record_of fixed) }
        ensures ok { OnOk result (self.new
            ≡ self.old ++ record { owner = owner; sub = sub; fixed = fixed } ∷ []) }
        ensures unchanged { OnErr result (self.new ≡ self.old) }
    {
        let alloc = *self.subscriptions.allocator();
        self.subscriptions.reserve(1)?;
        let name = *first_name(&fixed.filter);
        list_under(alloc, &mut self.table, name, self.subscriptions.len())?;
        self.subscriptions
            .push_reserved(ManagedSubscription { owner, sub, fixed });
        Ok(())
    }

    /// To which instances the commit of an edit goes, where `contents` are those after the edit.
    pub fn chosen(&self, contents: &Contents, edit: &Edit) -> Result<Instances, NoMemory>
        requires { EndsWith edit.now.1 contents.now }
        ensures chosen { IfOk result (λ instances. (before : List Part)
            → contents.now ≡ apply edit.now before
            → AreChosen self.now before edit.now instances) }
        ensures based { IfOk result (All (HasBase self.now)) }
        ensures ascending { IfOk result (IsStrictlySortedBy instance_cmp) }
    {
        let alloc = *self.subscriptions.allocator();
        let places = self.places_under(contents)?;
        let subscriptions = self.as_slice();
        let found = chosen_at(alloc, subscriptions, places.as_slice(), contents, edit)?;
        Ok(Instances::new(found))
    }

    /// The places of the subscriptions whose first name is a name of the contents, ascending.
    fn places_under(&self, contents: &Contents) -> Result<Vec<usize>, NoMemory>
        ensures ascending { IfOk result (λ v. IsStrictlySortedBy nat_cmp v.items) }
        ensures listed { IfOk result (λ v. (k : ℕ) → has_place v.items k
            ≡ is_listed_at (names_of contents.now) (slice_get self.now k)) }
    {
        let alloc = *self.subscriptions.allocator();
        if self.subscriptions.is_empty() {
            return Ok(Vec::new(alloc));
        }
        let names = names(alloc, contents.parts())?;
        let mut places = self.look_up(alloc, names.as_slice())?;
        places.sort_unstable();
        places.dedup();
        Ok(places)
    }

    /// The places that are listed under these names.
    fn look_up(&self, alloc: Global, names: &[Name]) -> Result<Vec<usize>, NoMemory>
        ensures { IfOk result (λ v. v.items
            ≡ flat_map (λ name. places_named name self.now) names.now) }
    {
        let mut places = Vec::new(alloc);
        for name in names {
            places.extend_from_slice(at(&self.table, name))?;
        }
        Ok(places)
    }
}
