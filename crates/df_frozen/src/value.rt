//! Values: numbers, words, bytes, lists and maps.

ghost use Rattle.std.specs.Prelude.{◌≡◌, ◌<◌, [], ◌∷◌, ◌++◌, length, get_or, set};
ghost use Rattle.df_frozen.specs.code.Inner.{children};
ghost use Rattle.df_frozen.specs.code.Counting.{own_byte_count, left};
ghost use Rattle.df_frozen.specs.code.LetGo.{listed};
ghost use Rattle.df_frozen.specs.Limits.{counted};
ghost use Rattle.df_frozen.specs.Value.{plain};

use crate::blob::Blob;
use crate::entries::Entries;
use crate::items::Items;
use crate::let_go;
use crate::row::Row;
use crate::words::Words;

/// A tree of numbers, words, bytes, lists and maps. It may be of any depth: it is let go by a loop
/// that takes no memory.
#[cycle(value)]
pub enum Value {
    Int(i64),
    Words(Words),
    Bytes(Blob),
    Items(Items),
    Map(Entries),
}

impl Drop for Value {
    fn drop(self) {
        let_go::let_go(self);
    }
}

impl Value {
    // The values that lie in a list or a map, in order.
    pub(crate) fn inner(&self) -> Row<'_>
        ensures { left result ≡ children (plain self.now) }
    {
        match self {
            Value::Int(_) => Row::Items(&[]),
            Value::Words(_) => Row::Items(&[]),
            Value::Bytes(_) => Row::Items(&[]),
            Value::Items(items) => Row::Items(items.as_slice()),
            Value::Map(entries) => Row::Map(entries.as_slice()),
        }
    }

    // The bytes of the words, of the blob or of the names of the map.
    pub(crate) fn own_byte_count(&self) -> u64
        ensures { result ≡ counted (own_byte_count (plain self.now)) }
    {
        match self {
            Value::Int(_) => 0,
            Value::Words(words) => words.as_str().len() as u64,
            Value::Bytes(blob) => blob.as_slice().len() as u64,
            Value::Items(_) => 0,
            Value::Map(entries) => entries.name_byte_count(),
        }
    }

    // How many values lie in it.
    pub(crate) fn inner_len(&self) -> usize
        ensures { result ≡ length (listed self.now) }
    {
        match self {
            Value::Int(_) => 0,
            Value::Words(_) => 0,
            Value::Bytes(_) => 0,
            Value::Items(items) => items.as_slice().len(),
            Value::Map(entries) => entries.as_slice().len(),
        }
    }

    // Puts a value in the place of another, which it gives.
    pub(crate) fn replace_inner(&mut self, k: usize, by: Value) -> Value
        requires { k < length (listed self.now) }
        ensures values { listed self.new ≡ set (listed self.old) k (plain by) }
        ensures value { plain result ≡ get_or (listed self.old) k (plain by) }
    {
        match self {
            Value::Items(items) => items.replace(k, by),
            Value::Map(entries) => entries.replace(k, by),
            _ => by,
        }
    }

    // Takes off the last value.
    pub(crate) fn pop_inner(&mut self) -> Value
        requires { 0 < length (listed self.now) }
        ensures { listed self.old ≡ listed self.new ++ plain result ∷ [] }
    {
        match self {
            Value::Items(items) => items.pop(),
            Value::Map(entries) => entries.pop(),
            _ => Value::Int(0),
        }
    }

    // Lets go of a value that has none in it.
    pub(crate) fn end(self)
        requires { length (listed self) ≡ 0 }
    {
        match self {
            Value::Int(_) => (),
            Value::Words(_) => (),
            Value::Bytes(_) => (),
            Value::Items(items) => items.destroy_empty(),
            Value::Map(entries) => entries.destroy_empty(),
        }
    }
}
