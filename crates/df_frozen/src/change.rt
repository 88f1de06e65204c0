//! Changes of a node.

ghost use Rattle.std.specs.Prelude.{◌≡◌, Ok, Err};
ghost use Rattle.df_frozen.specs.Change.{changed, value_of, Changes};
ghost use Rattle.df_frozen.specs.Place.{change_at};
ghost use Rattle.df_frozen.specs.Value.{plain};

use crate::name::Name;
use crate::put::{NotPut, PutCause};
use crate::step::Step;
use crate::value::Value;

// What is done to the node at the end of a path.
#[derive(Drop)]
pub(crate) enum Change {
    Set(Value),
    Push(Value),
    Put(Name, Value),
}

impl Change {
    // The value back, where there is no such place.
    pub(crate) fn misplaced(self) -> NotPut
        ensures value { result.value ≡ value_of self }
        ensures cause { result.cause ≡ PutCause.NoSuchPlace }
    {
        let value = match self {
            Change::Set(value) => value,
            Change::Push(value) => value,
            Change::Put(_, value) => value,
        };
        NotPut {
            value,
            cause: PutCause::NoSuchPlace,
        }
    }
}

impl Value {
    // Changes this node.
    fn change(&mut self, change: Change) -> Result<(), NotPut>
        ensures { Changes change (changed change (plain self.old)) (plain self.old)
            (plain self.new) result }
    {
        match change {
            Change::Set(value) => {
                *self = value;
                Ok(())
            }
            Change::Push(value) => match self {
                Value::Items(items) => items.push(value),
                _ => Err(Change::Push(value).misplaced()),
            },
            Change::Put(name, value) => match self {
                Value::Map(entries) => entries.put(name, value),
                _ => Err(Change::Put(name, value).misplaced()),
            },
        }
    }

    // Changes the node at the path.
    #[cycle(change_at)]
    pub(crate) fn change_at(&mut self, path: &[Step], change: Change) -> Result<(), NotPut>
        ensures { Changes change
            (change_at (changed change) path.now (plain self.old))
            (plain self.old)
            (plain self.new)
            result }
    {
        match path.split_first() {
            None => self.change(change),
            Some((Step::At(k), rest)) => match self {
                Value::Items(items) => items.change_at(*k as usize, rest, change),
                _ => Err(change.misplaced()),
            },
            Some((Step::Key(name), rest)) => match self {
                Value::Map(entries) => entries.change_at(name, rest, change),
                _ => Err(change.misplaced()),
            },
        }
    }
}
