//! Rows: the values of one list or map, from the first on.

ghost use Rattle.std.specs.Prelude.{◌≡◌, MatchOption};
ghost use Rattle.df_frozen.specs.Plain.{no_items, item};
ghost use Rattle.df_frozen.specs.code.Counting.{left};
ghost use Rattle.df_frozen.specs.Value.{plain};

use crate::name::Name;
use crate::value::Value;

// The values of a list or a map that are left.
#[derive(Clone, Copy)]
pub(crate) enum Row<'a> {
    Items(&'a [Value]),
    Map(&'a [(Name, Value)]),
}

impl<'a> Row<'a> {
    // The first value and the row of the others.
    pub(crate) fn split_first(self) -> Option<(&'a Value, Row<'a>)>
        ensures { MatchOption result
            (left self.entry ≡ no_items)
            (λ r. left self.entry ≡ item (plain r.0.now) (left r.1)) }
    {
        match self {
            Row::Items(values) => match values.split_first() {
                Some((first, rest)) => Some((first, Row::Items(rest))),
                None => None,
            },
            Row::Map(entries) => match entries.split_first() {
                Some((first, rest)) => Some((&first.1, Row::Map(rest))),
                None => None,
            },
        }
    }
}
