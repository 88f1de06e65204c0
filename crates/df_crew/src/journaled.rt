//! A crew as a desk hands it round: its origin, and its journal with the oldest entry first.

ghost use Rattle.df_crew.specs.Seen.{origin_of, seen_of};

use crate::crew::Crew;
use crate::origin::Origin;
use df_brain::Brain;
use df_desk::Journaled;
use df_unit::Entry;

impl<B: Brain> Journaled for Crew<B> {
    type Origin = Origin<B>;

    type Entry = Entry;

    ghost origin = { origin_of };

    ghost list = { seen_of };

    #[tactic(auto, using(crate::proofs::Seen::counted))]
    fn count(&self) -> u64 {
        self.core().journal().len() as u64
    }
}
