//! The steps on the words of the desk's table, by what each tells the seat that makes it.
ghost use Rattle.df_desk.specs.Plays.{Tries, Counts, Frees, Compares, joined_view};
ghost use Rattle.df_desk.specs.declared.view.View.TheVariants.{Spent};

use crate::journaled::Journaled;
use crate::view::View;
use atomic_table::{Join, Play, Split};
use std::marker::PhantomData;

/// Calls the value, if no seat has it.
pub(crate) struct Try<V> {
    marker: PhantomData<V>,
}

impl<V: Journaled> Play<Option<V>, View<V>> for Try<V> {
    ghost then = { Tries V.origin V.list };
}

/// Writes the length of the list that is about to be given.
pub(crate) struct Count;

impl<V> Play<Option<V>, View<V>> for Count {
    ghost then = { Counts };
}

/// Lets the next seat call the value, which is back in its slot.
pub(crate) struct Free;

impl<V> Play<Option<V>, View<V>> for Free {
    ghost then = { Frees };
}

/// Learns that one of two lists begins the other.
pub(crate) struct Compare<V> {
    marker: PhantomData<V>,
}

impl<V: Journaled> Play<Option<V>, View<V>> for Compare<V> {
    ghost then = { Compares V.origin V.list };
}

/// Both seats have seen what the one had.
pub(crate) struct Twin;

impl<V> Split<View<V>> for Twin {
    ghost left = { λ v. v };

    ghost right = { λ v. v };
}

/// One seat has seen what both had.
pub(crate) struct Both;

impl<V> Join<View<V>> for Both {
    ghost both = { joined_view };

    ghost spent = { Spent };
}
