//! Maps from names to values.

ghost use Rattle.std.specs.Prelude.{◌≡◌, ◌<◌, ◌≤◌, [], ◌∷◌, ◌++◌, length, map, option_map, get_or, set, MatchResult, IfOk, OnOk, OnErr, IfErr};
ghost use Rattle.df_frozen.specs.Change.{changed, Changes};
ghost use Rattle.df_frozen.specs.code.Copying.{content, IsFresh};
ghost use Rattle.df_frozen.specs.Entries.{names, values, get, IsAscending};
ghost use Rattle.df_frozen.specs.Place.{change_at, change_value, put_entry};
ghost use Rattle.df_frozen.specs.Plain.{entries, from_pairs};
ghost use Rattle.df_frozen.specs.code.Search.{place_of};
ghost use Rattle.df_frozen.specs.code.Counting.{name_byte_count};
ghost use Rattle.df_frozen.specs.Limits.{counted};
ghost use Rattle.df_frozen.specs.Value.{plain, named};

use crate::change::Change;
use crate::copy::{Layer, complete};
use crate::name::Name;
use crate::put::{NotPut, PutCause};
use crate::step::Step;
use crate::value::Value;
use df_memory::NoMemory;
use std::alloc::Global;
use std::marker::Model;
use std::mem;

/// Values by name, in the order of their names.
#[derive(Drop)]
#[cycle(value)]
pub struct Entries {
    entries: Vec<(Name, Value)>,
}

impl Model for Entries {
    ghost use Rattle.std.specs.Prelude.{ℕ, List, map};
    ghost use Rattle.std.specs.Coded.{coded_list, coded×, coded_ℕ};
    ghost use Rattle.df_frozen.specs.Plain.{Plain, deepest_entry};
    ghost use Rattle.df_frozen.specs.code.Code.{plain_code};
    ghost use Rattle.df_frozen.specs.Entries.{names, IsAscending};

    ghost Value = { List (List ℕ × Plain) };

    ghost coded = { coded_list (coded× (coded_list coded_ℕ) plain_code) };

    ghost use Rattle.df_frozen.specs.Value.{named};

    ghost view = { λ a. map named a.entries.items };

    ghost invariant = { λ a. IsAscending (names a.entries.items) };

    ghost size = { deepest_entry };

    ghost use Rattle.df_frozen.specs.code.Nesting.{most_le-deepest_entry};
    ghost use Rattle.std.proofs.Common.{arith};

    ghost size_decreases = { λ a h. omega (arith, most_le-deepest_entry a.entries.items) };
}

impl Entries {
    /// No entries.
    pub fn new(alloc: Global) -> Entries
        ensures { result ≡ [] }
    {
        Entries {
            entries: Vec::new(alloc),
        }
    }

    /// The map of entries whose names stand in order.
    pub fn from_ascending(entries: Vec<(Name, Value)>) -> Entries
        requires { IsAscending (names entries.items) }
        ensures { result ≡ map named entries.items }
    {
        Entries { entries }
    }

    /// The entries, each name before those after it.
    pub fn as_slice(&self) -> &[(Name, Value)]
        ensures value { map named result.now ≡ self.now }
        ensures ascending { IsAscending (names self.now) }
    {
        self.entries.as_slice()
    }

    /// The value under the name.
    pub fn get(&self, name: &Name) -> Option<&Value>
        ensures { option_map (λ v. plain v.now) result ≡ get name.now self.now }
    {
        match place(self.entries.as_slice(), name) {
            Ok(k) => Some(&self.entries[k].1),
            Err(_) => None,
        }
    }

    /// An equal map. Its values may be of any depth: they are copied by a loop.
    pub fn copy(&self) -> Result<Entries, NoMemory>
        ensures { IfOk result (λ entries. entries ≡ self.now) }
    {
        Ok(Entries::from_ascending(complete(self.layer())?.into_entries()))
    }

    // This map, with nothing copied yet.
    pub(crate) fn layer(&self) -> Layer<'_>
        ensures content { content result ≡ entries (from_pairs self.now) }
        ensures fresh { IsFresh result }
    {
        Layer::Map {
            from: self,
            made: Vec::new(*self.entries.allocator()),
        }
    }

    /// Puts a value under the name, in place of the one that stood there. Where there is no memory
    /// the value comes back.
    pub fn put(&mut self, name: Name, value: Value) -> Result<(), NotPut>
        ensures put { OnOk result (from_pairs self.new
            ≡ put_entry name (plain value) (from_pairs self.old)) }
        ensures unchanged { OnErr result (self.new ≡ self.old) }
        ensures back { IfErr result (λ e. e.value ≡ value) }
        ensures cause { IfErr result (λ e. e.cause ≡ PutCause.NoMemory) }
    {
        match place(self.entries.as_slice(), &name) {
            Ok(k) => {
                self.entries[k] = (name, value);
                Ok(())
            }
            Err(k) => match self.entries.insert(k, (name, value)) {
                Ok(()) => Ok(()),
                Err(refused) => Err(NotPut {
                    value: refused.value.1,
                    cause: PutCause::NoMemory,
                }),
            },
        }
    }

    // Changes the node that lies at the path from the value under the name.
    #[cycle(change_at)]
    pub(crate) fn change_at(
        &mut self,
        name: &Name,
        path: &[Step],
        change: Change,
    ) -> Result<(), NotPut>
        ensures { Changes change
            (option_map entries
            (change_value (change_at (changed change) path.now) name.now (from_pairs self.old)))
            (entries (from_pairs self.old))
            (entries (from_pairs self.new))
            result }
    {
        let Ok(k) = place(self.entries.as_slice(), name) else {
            return Err(change.misplaced());
        };
        let child = &mut self.entries[k].1;
        child.change_at(path, change)
    }

    // The bytes of all the names.
    pub(crate) fn name_byte_count(&self) -> u64
        ensures { result ≡ counted (name_byte_count (from_pairs self.now)) }
    {
        let mut count: u64 = 0;
        for entry in self.as_slice() {
            count = count.saturating_add(entry.0.as_bytes().len() as u64);
        }
        count
    }

    // Puts a value in the place of another, which it gives.
    pub(crate) fn replace(&mut self, k: usize, by: Value) -> Value
        requires { k < length self.now }
        ensures values { values self.new ≡ set (values self.old) k (plain by) }
        ensures value { plain result ≡ get_or (values self.old) k (plain by) }
    {
        mem::replace(&mut self.entries[k].1, by)
    }

    // Takes off the last value.
    pub(crate) fn pop(&mut self) -> Value
        requires { 0 < length self.now }
        ensures { values self.old ≡ values self.new ++ plain result ∷ [] }
    {
        self.entries.pop().unwrap().1
    }

    // Lets go of no entries.
    pub(crate) fn destroy_empty(self)
        requires { length self ≡ 0 }
    {
        let Entries { entries } = self;
        entries.destroy_empty();
    }
}

// Where the name stands, or before which it would.
fn place(entries: &[(Name, Value)], name: &Name) -> Result<usize, usize>
    requires { IsAscending (names entries.now) }
    ensures place { result ≡ place_of name.now (names entries.now) }
    ensures within { MatchResult result (λ k. k < length entries.now)
        (λ k. k ≤ length entries.now) }
{
    match entries.last() {
        Some(last) if last.0 < *name => Err(entries.len()),
        _ => entries.binary_search_by(|entry| entry.0.cmp(name)),
    }
}
