//! The parts of a name that a unit sees, without memory.

ghost use Rattle.std.specs.Iterator.{YieldsFirstRef, item_count};

use crate::Local;
use df_frozen::Name;
use df_handles::is_named;
use df_label::Label;
use df_part::{PartRef, Spot};
use df_unit::Handle;
use std::iter::FusedIterator;
use std::marker::Model;

/// The visible parts of a name, in order.
#[derive(Drop)]
pub struct NamedParts<'a> {
    input: &'a Label,
    named: &'a [Spot],
    name: &'a Name,
    parts: &'a [PartRef],
}

impl<'a> Model for NamedParts<'a> {
    ghost use Rattle.std.specs.Prelude.{List};
    ghost use Rattle.std.specs.Coded.{coded_list};
    ghost use Rattle.df_handles.specs.Visible.{named_in};
    ghost use Rattle.df_part.specs.declared.part.Part.{Part};
    ghost use Rattle.df_part.specs.contracts.part.Part as content;

    ghost Value = { List Part };

    ghost coded = { coded_list content.the_row.coded };

    ghost view = { λ r. named_in r.input.now r.named.now r.name.now r.parts.now };
}

impl Local {
    ghost use Rattle.std.specs.Prelude.{◌≡◌};
    ghost use Rattle.df_local.specs.Named.{named_at};
    ghost use Rattle.df_unit.specs.Handles.{handle_at};

    /// The visible parts of a name at a handle, in order; none where the handle isn't open.
    pub fn parts_named<'a>(&'a self, h: u32, name: &'a Name) -> NamedParts<'a>
        ensures { result ≡ named_at self.now.own.input name.now (handle_at self.now.own.handles h) }
    {
        match self.handles.get(h) {
            Some(handle) => NamedParts::of_handle(&self.reading.input, handle, name),
            None => NamedParts {
                input: &self.reading.input,
                named: &[],
                name,
                parts: &[],
            },
        }
    }
}

impl<'a> NamedParts<'a> {
    ghost use Rattle.std.specs.Prelude.{◌≡◌};
    ghost use Rattle.df_unit.specs.Drafts.{visible_named};

    fn of_handle(input: &'a Label, handle: &'a Handle, name: &'a Name) -> NamedParts<'a>
        ensures { result ≡ visible_named input.now name.now handle.now }
    {
        NamedParts {
            input,
            named: handle.named.as_slice(),
            name,
            parts: handle.seen.as_slice(),
        }
    }
}

impl<'a> Iterator for NamedParts<'a> {
    type Item = &'a PartRef;

    ghost next_gives = { YieldsFirstRef (λ left. left) };

    ghost remaining = { item_count (λ left. left) };

    fn next(&mut self) -> Option<&'a PartRef> {
        while let Some((first, others)) = self.parts.split_first() {
            self.parts = others;
            if is_named(self.input, self.named, self.name, first.part()) {
                return Some(first);
            }
        }
        None
    }
}

impl<'a> FusedIterator for NamedParts<'a> {}
