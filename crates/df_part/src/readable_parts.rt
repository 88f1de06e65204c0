ghost use Rattle.std.specs.Iterator.{YieldsFirstRef, item_count};

use crate::{PartRef, readable};
use df_label::Label;
use std::iter::FusedIterator;
use std::marker::Model;

/// The parts that may be read at a label, in order.
#[derive(Drop)]
pub struct ReadableParts<'a> {
    at: &'a Label,
    parts: &'a [PartRef],
}

impl<'a> Model for ReadableParts<'a> {
    ghost use Rattle.std.specs.Prelude.{List};
    ghost use Rattle.std.specs.Coded.{coded_list};
    ghost use Rattle.df_part.specs.Part.{cut};
    ghost use Rattle.df_part.specs.declared.part.Part.{Part};
    ghost use Rattle.df_part.specs.contracts.part.Part as content;

    ghost Value = { List Part };

    ghost coded = { coded_list content.the_row.coded };

    ghost view = { λ r. cut r.at.now r.parts.now };
}

impl<'a> ReadableParts<'a> {
    ghost use Rattle.std.specs.Prelude.{◌≡◌};
    ghost use Rattle.df_part.specs.Part.{cut};

    pub(crate) fn new(at: &'a Label, parts: &'a [PartRef]) -> ReadableParts<'a>
        ensures { result ≡ cut at.now parts.now }
    {
        ReadableParts { at, parts }
    }
}

impl<'a> Iterator for ReadableParts<'a> {
    type Item = &'a PartRef;

    ghost next_gives = { YieldsFirstRef (λ left. left) };

    ghost remaining = { item_count (λ left. left) };

    fn next(&mut self) -> Option<&'a PartRef> {
        while let Some((first, others)) = self.parts.split_first() {
            self.parts = others;
            if readable(self.at, first.part()) {
                return Some(first);
            }
        }
        None
    }
}

impl<'a> FusedIterator for ReadableParts<'a> {}
