//! Lists of values.

ghost use Rattle.std.specs.Prelude.{◌≡◌, ◌<◌, [], ◌∷◌, ◌++◌, length, map, option_map, get_or, set, IfOk, OnOk, OnErr, IfErr};
ghost use Rattle.df_frozen.specs.Change.{changed, Changes};
ghost use Rattle.df_frozen.specs.code.Copying.{content, IsFresh};
ghost use Rattle.df_frozen.specs.Place.{change_at, change_item};
ghost use Rattle.df_frozen.specs.Plain.{items, from_list};
ghost use Rattle.df_frozen.specs.Value.{plain};

use crate::change::Change;
use crate::copy::{Layer, complete};
use crate::put::{NotPut, PutCause};
use crate::step::Step;
use crate::value::Value;
use df_memory::NoMemory;
use std::alloc::Global;
use std::marker::Model;
use std::mem;

/// Values in order.
#[derive(Drop)]
#[cycle(value)]
pub struct Items {
    values: Vec<Value>,
}

impl Model for Items {
    ghost use Rattle.std.specs.Prelude.{List, map};
    ghost use Rattle.std.specs.Coded.{coded_list};
    ghost use Rattle.df_frozen.specs.Plain.{Plain, deepest_item};
    ghost use Rattle.df_frozen.specs.code.Code.{plain_code};

    ghost Value = { List Plain };

    ghost coded = { coded_list plain_code };

    ghost use Rattle.df_frozen.specs.Value.{plain};

    ghost view = { λ a. map plain a.values.items };

    ghost size = { deepest_item };

    ghost use Rattle.df_frozen.specs.code.Nesting.{most_le-deepest_item};
    ghost use Rattle.std.proofs.Common.{arith};

    ghost size_decreases = { λ a h. omega (arith, most_le-deepest_item a.values.items) };
}

impl Items {
    /// No values.
    pub fn new(alloc: Global) -> Items
        ensures { result ≡ [] }
    {
        Items {
            values: Vec::new(alloc),
        }
    }

    pub fn as_slice(&self) -> &[Value]
        ensures { map plain result.now ≡ self.now }
    {
        self.values.as_slice()
    }

    /// An equal list. Its values may be of any depth: they are copied by a loop.
    pub fn copy(&self) -> Result<Items, NoMemory>
        ensures { IfOk result (λ items. items ≡ self.now) }
    {
        Ok(Items {
            values: complete(self.layer())?.into_values(),
        })
    }

    // This list, with nothing copied yet.
    pub(crate) fn layer(&self) -> Layer<'_>
        ensures content { content result ≡ items (from_list self.now) }
        ensures fresh { IsFresh result }
    {
        Layer::Items {
            from: self,
            made: Vec::new(*self.values.allocator()),
        }
    }

    pub(crate) fn push(&mut self, value: Value) -> Result<(), NotPut>
        ensures pushed { OnOk result (self.new ≡ self.old ++ plain value ∷ []) }
        ensures unchanged { OnErr result (self.new ≡ self.old) }
        ensures back { IfErr result (λ e. e.value ≡ value) }
        ensures cause { IfErr result (λ e. e.cause ≡ PutCause.NoMemory) }
    {
        match self.values.push(value) {
            Ok(()) => Ok(()),
            Err(refused) => Err(NotPut {
                value: refused.value,
                cause: PutCause::NoMemory,
            }),
        }
    }

    // Changes the node that lies at the path from the value at the index.
    #[cycle(change_at)]
    pub(crate) fn change_at(
        &mut self,
        k: usize,
        path: &[Step],
        change: Change,
    ) -> Result<(), NotPut>
        ensures { Changes change
            (option_map items (change_item (change_at (changed change) path.now) k
            (from_list self.old)))
            (items (from_list self.old))
            (items (from_list self.new))
            result }
    {
        let Some(child) = self.values.get_mut(k) else {
            return Err(change.misplaced());
        };
        child.change_at(path, change)
    }

    pub(crate) fn from_values(values: Vec<Value>) -> Items
        ensures { result ≡ map plain values.items }
    {
        Items { values }
    }

    // Puts a value in the place of another, which it gives.
    pub(crate) fn replace(&mut self, k: usize, by: Value) -> Value
        requires { k < length self.now }
        ensures values { self.new ≡ set self.old k (plain by) }
        ensures value { plain result ≡ get_or self.old k (plain by) }
    {
        mem::replace(&mut self.values[k], by)
    }

    // Takes off the last value.
    pub(crate) fn pop(&mut self) -> Value
        requires { 0 < length self.now }
        ensures { self.old ≡ self.new ++ plain result ∷ [] }
    {
        self.values.pop().unwrap()
    }

    // Lets go of no values.
    pub(crate) fn destroy_empty(self)
        requires { length self ≡ 0 }
    {
        let Items { values } = self;
        values.destroy_empty();
    }
}
