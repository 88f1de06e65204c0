//! Tags, of which many keep their spelling.
ghost use Rattle.std.specs.Prelude.{◌≡◌, ◌++◌, All, IsTrue, ◌↔◌, IfOk, OnOk};
ghost use Rattle.df_label.specs.Ascending.{IsAscending};
ghost use Rattle.df_label.specs.Spelling.{AreShort, tags_text};
ghost use Rattle.df_label.specs.Tag.{tag_cmp};
ghost use Rattle.df_label.specs.TagSet.{is_subset};

use crate::spelling::append_each;
use crate::{Tag, tags};
use df_memory::NoMemory;
use std::marker::Model;

// From how many tags on the spelling is kept: fewer are spelled and compared as fast without it.
const MANY: usize = 4;

/// Tags, seen as their list. Where they are many their spelling is made once, and compared in
/// their place.
#[derive(Debug, Drop)]
pub struct SpelledTags {
    list: Vec<Tag>,
    // the spelling, or nothing
    text: Vec<u8>,
}

impl Model for SpelledTags {
    ghost use Rattle.std.specs.Prelude.{ℕ, List};
    ghost use Rattle.df_label.specs.code.SpelledTags.{IsSpelling};

    ghost Value = { List (List ℕ) };

    ghost view = { λ t. t.list.items };

    ghost invariant = { λ t. IsSpelling t.text.items t.list.items };
}

impl SpelledTags {
    pub fn new(list: Vec<Tag>) -> Result<SpelledTags, NoMemory>
        ensures { IfOk result (λ t. t ≡ list.items) }
    {
        let mut text = Vec::new(*list.allocator());
        if list.len() >= MANY {
            append_each(list.as_slice(), &mut text)?;
        }
        Ok(SpelledTags { list, text })
    }

    /// The tags of which this is the spelling.
    pub fn from_spelled(list: Vec<Tag>, spelling: &[u8]) -> Result<SpelledTags, NoMemory>
        requires spelled { spelling.now ≡ tags_text list.items }
        requires short { All AreShort list.items }
        ensures { IfOk result (λ t. t ≡ list.items) }
    {
        let mut text = Vec::new(*list.allocator());
        if list.len() >= MANY {
            text.extend_from_slice(spelling)?;
        }
        Ok(SpelledTags { list, text })
    }

    pub fn as_slice(&self) -> &[Tag]
        ensures { result.now ≡ self.now }
    {
        self.list.as_slice()
    }

    /// Appends the tags with `,` between them.
    pub fn append_to(&self, to: &mut Vec<u8>) -> Result<(), NoMemory>
        ensures { OnOk result (to.new.items ≡ to.old.items ++ tags_text self.now) }
    {
        if self.text.is_empty() {
            return append_each(self.list.as_slice(), to);
        }
        to.extend_from_slice(self.text.as_slice())?;
        Ok(())
    }

    pub fn same(&self, other: &SpelledTags) -> bool
        ensures { IsTrue result ↔ self.now ≡ other.now }
    {
        if self.text.is_empty() || other.text.is_empty() {
            return tags::same(self.list.as_slice(), other.list.as_slice());
        }
        self.text.as_slice() == other.text.as_slice()
    }

    /// Whether each tag is one of the others.
    pub fn is_subset(&self, of: &SpelledTags) -> bool
        requires ascending { IsAscending tag_cmp self.now }
        requires of_ascending { IsAscending tag_cmp of.now }
        ensures { result ≡ is_subset self.now of.now }
    {
        self.same(of) || tags::first_missing(of.as_slice(), self.as_slice()).is_none()
    }
}
