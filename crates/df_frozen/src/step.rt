//! Steps from a value to one that lies in it.

ghost use Rattle.std.specs.Prelude.{◌≡◌, option_map};
ghost use Rattle.df_frozen.specs.Place.{child_at};
ghost use Rattle.df_frozen.specs.Value.{plain};

use crate::name::Name;
use crate::value::Value;

/// A step into a list, by an index from 0, or into a map, by a name.
#[derive(Clone, Copy, Debug, PartialEq, Eq)]
pub enum Step {
    At(u32),
    Key(Name),
}

impl Value {
    // Where the step leads.
    pub(crate) fn child(&self, step: &Step) -> Option<&Value>
        ensures { option_map (λ v. plain v.now) result ≡ child_at step.now (plain self.now) }
    {
        match (self, step) {
            (Value::Items(items), Step::At(k)) => items.as_slice().get(*k as usize),
            (Value::Map(entries), Step::Key(name)) => entries.get(name),
            _ => None,
        }
    }
}
