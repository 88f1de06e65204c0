ghost use Rattle.df_desk.specs.Rule.{DeskInvariant};
ghost use Rattle.df_desk.specs.declared.view.View.TheVariants.{Idle};

use crate::journaled::Journaled;
use crate::view::View;
use atomic_table::TableRule;
use std::marker::PhantomData;
use std::snapshot::Snapshot;

/// What holds of the desk's table between any two steps, whoever makes them.
///
/// The table has two words and one slot. The first word is 1 while a seat has the value, else 0.
/// The second is the length of the desk's list. The slot has the value.
pub struct DeskRule<V> {
    marker: PhantomData<V>,
}

impl<V: Journaled> TableRule<Option<V>, View<V>, Snapshot<V>> for DeskRule<V> {
    ghost holds = { λ key. DeskInvariant V.origin V.list key.value };

    ghost first = { λ key. Idle key.value };
}
