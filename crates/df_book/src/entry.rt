//! What stands at a node of a tree.

ghost use Rattle.std.specs.Prelude.{◌≡◌, IfOk};
ghost use Rattle.df_book.specs.code.Trees.{with_left};

use crate::place::{Place, Rest};
use df_memory::NoMemory;
use std::alloc::Global;
use std::marker::Model;
use std::sync::Arc;

/// A place that is shared, with what rests at it, which a contract sees as the two.
#[derive(Drop)]
pub(crate) struct Entry {
    place: Arc<Place>,
    rest: Rest,
}

impl Model for Entry {
    ghost use Rattle.std.specs.Arc.{arc_value};
    ghost use Rattle.df_book.specs.declared.place.Place.{Place};
    ghost use Rattle.df_book.specs.declared.place.Rest.{Rest};

    ghost Value = { Place × Rest };

    ghost view = { λ e. (arc_value e.place, e.rest) };
}

impl Entry {
    pub(crate) fn new(alloc: Global, place: Place, rest: Rest) -> Result<Entry, NoMemory>
        ensures { IfOk result (λ e. e ≡ (place, rest)) }
    {
        Ok(Entry {
            place: Arc::new(alloc, place)?,
            rest,
        })
    }

    pub(crate) fn place(&self) -> &Place
        ensures { result.now ≡ self.now.0 }
    {
        &self.place
    }

    pub(crate) fn rest(&self) -> &Rest
        ensures { result.now ≡ self.now.1 }
    {
        &self.rest
    }

    /// The same once more. The place isn't copied.
    pub(crate) fn share(&self) -> Result<Entry, NoMemory>
        ensures { IfOk result (λ e. e ≡ self.now) }
    {
        Ok(Entry {
            place: Arc::try_clone(&self.place)?,
            rest: self.rest,
        })
    }

    /// At the same place something else. The place isn't copied.
    pub(crate) fn with_rest(&self, rest: Rest) -> Result<Entry, NoMemory>
        ensures { IfOk result (λ e. e ≡ (self.now.0, rest)) }
    {
        Ok(Entry {
            place: Arc::try_clone(&self.place)?,
            rest,
        })
    }

    /// So much of what rests there. The place isn't copied.
    pub(crate) fn with_left(&self, left: i64) -> Result<Entry, NoMemory>
        ensures { IfOk result (λ e. e ≡ with_left left self.now) }
    {
        let Rest { id, qty: _, trader } = self.rest;
        self.with_rest(Rest {
            id,
            qty: left,
            trader,
        })
    }
}
