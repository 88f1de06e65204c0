//! The laws of the desk: what its rule says of each moment of its table, whoever made the steps
//! before.
//! No law does anything. Its contract is the law.
ghost use mathlib.Core.List.{IsPrefix};
ghost use Rattle.df_desk.specs.Laws.{Always, HasOneHolder, TellsHolder, IsEmptyOnlyWhileHeld, HasOneList, CountsItsList, HasSeenBeginnings, HasOrigin};

use crate::journaled::Journaled;
use crate::pass::Pass;

/// At most one seat has the value, and the first word tells whether one has.
pub fn one_holder<V: Journaled>()
    ensures one { Always V.origin V.list (λ _ s. HasOneHolder s) }
    ensures told { Always V.origin V.list (λ _ s. TellsHolder s) }
{}

/// The slot is empty only while a seat has the value.
pub fn empty_only_while_held<V: Journaled>()
    ensures { Always V.origin V.list (λ _ s. IsEmptyOnlyWhileHeld s) }
{}

/// The desk has one list, and the second word is its length.
pub fn counts_its_list<V: Journaled>()
    ensures one { Always V.origin V.list (λ _ s. HasOneList V.list s) }
    ensures count { Always V.origin V.list (λ _ s. CountsItsList V.list s) }
{}

/// Each seat has seen a beginning of the desk's list.
pub fn seen_beginnings<V: Journaled>()
    ensures { Always V.origin V.list (λ _ s. HasSeenBeginnings V.list s) }
{}

/// There is one origin, that of the value with which the desk was made.
pub fn one_origin<V: Journaled>()
    ensures { Always V.origin V.list (λ first s. HasOrigin V.origin (V.origin first) s) }
{}

/// What its last take found is a prefix of what a pass has seen.
pub fn found_beginning<V: Journaled>(pass: &Pass<V>)
    ensures { IsPrefix pass.now.found pass.now.seen }
{
    let _ = &pass.found;
}
