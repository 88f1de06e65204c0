//! Places that are listed under names.

ghost use Rattle.std.specs.Prelude.{◌≡◌, [], ◌∷◌, ◌++◌, cond, List, ℕ, IfOk, OnOk, OnErr};
ghost use Rattle.std.specs.Str.{bytes_eq};
ghost use Rattle.df_index.specs.Listing.{places_at};

use df_frozen::Name;
use df_memory::NoMemory;
use std::alloc::Global;
use std::collections::BTreeMap;
use std::marker::Model;

/// Places in a list, in order.
#[derive(Drop)]
pub(crate) struct Places {
    list: Vec<usize>,
}

impl Model for Places {
    ghost use Rattle.std.specs.Prelude.{ℕ, List};

    ghost Value = { List ℕ };

    ghost view = { λ p. p.list.items };
}

impl Places {
    fn one(alloc: Global, place: usize) -> Result<Places, NoMemory>
        ensures { IfOk result (λ places. places ≡ place ∷ []) }
    {
        Ok(Places {
            list: vec![in alloc; place]?,
        })
    }

    /// Takes no memory.
    pub(crate) fn new(list: Vec<usize>) -> Places
        ensures { result ≡ list.items }
    {
        Places { list }
    }

    pub(crate) fn as_slice(&self) -> &[usize]
        ensures { result.now ≡ self.now }
    {
        self.list.as_slice()
    }

    fn push(&mut self, place: usize) -> Result<(), NoMemory>
        ensures ok { OnOk result (self.new ≡ self.old ++ place ∷ []) }
        ensures unchanged { OnErr result (self.new ≡ self.old) }
    {
        self.list.push(place)?;
        Ok(())
    }
}

/// The places that are listed under a name.
pub(crate) fn at<'a>(table: &'a BTreeMap<Name, Places>, name: &Name) -> &'a [usize]
    ensures { result.now ≡ places_at name.now table.now }
{
    match table.get(name) {
        None => &[],
        Some(places) => places.as_slice(),
    }
}

/// Lists one more place under a name.
pub(crate) fn list_under(
    alloc: Global,
    table: &mut BTreeMap<Name, Places>,
    name: Name,
    place: usize,
) -> Result<(), NoMemory>
    ensures ok { OnOk result ((n : List ℕ) → places_at n table.new
        ≡ cond (bytes_eq name n) (places_at n table.old ++ place ∷ []) (places_at n table.old)) }
    ensures unchanged { OnErr result ((n : List ℕ)
        → places_at n table.new ≡ places_at n table.old) }
{
    if let Some(places) = table.get_mut(&name) {
        places.push(place)?;
        return Ok(());
    }
    let places = Places::one(alloc, place)?;
    table.insert(name, places)?;
    Ok(())
}
