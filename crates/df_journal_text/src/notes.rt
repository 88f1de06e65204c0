//! What is noted of units, by the places of their rows.

ghost use Rattle.std.specs.Prelude.{◌≡◌, ◌<◌, IfOk, OnOk, option_copied, vec_len};

use crate::note::{Note, is_empty};
use df_label::Label;
use df_memory::NoMemory;
use std::alloc::Global;

/// The note that was written last of each unit, so that a contamination is spelled once for as
/// long as it stands. Units whose contamination has no tag, as most are, share one.
#[derive(Drop)]
pub struct Notes {
    alloc: Global,
    /// Of the contamination without tags, once a unit had it.
    bare: Note,
    notes: Vec<Note>,
    /// Of a unit that isn't there.
    of_none: Note,
}

/// Makes place for the notes up to this place.
#[inline(never)]
fn reach(alloc: Global, notes: &mut Vec<Note>, place: usize) -> Result<(), NoMemory>
    ensures { OnOk result (place < vec_len notes.new) }
{
    for _ in notes.len()..place {
        notes.push(Note::new(alloc))?;
    }
    if notes.len() == place {
        notes.push(Note::new(alloc))?;
    }
    Ok(())
}

impl Notes {
    /// Nothing is noted yet. Takes no memory.
    pub fn new(alloc: Global) -> Notes {
        Notes {
            alloc,
            bare: Note::new(alloc),
            notes: Vec::new(alloc),
            of_none: Note::new(alloc),
        }
    }

    /// The note of this contamination, which the unit at a place has.
    #[inline(always)]
    pub fn of(
        &mut self,
        place: Option<usize>,
        contamination: Option<&Label>,
    ) -> Result<&Note, NoMemory>
        ensures { IfOk result (λ note. note.now ≡ option_copied contamination.entry) }
    {
        match contamination {
            Some(label) if is_empty(label) => {
                self.bare.set(contamination)?;
                Ok(&self.bare)
            }
            _ => self.own(place, contamination),
        }
    }

    /// The note of this contamination that is kept of the unit at a place.
    #[inline(never)]
    fn own(
        &mut self,
        place: Option<usize>,
        contamination: Option<&Label>,
    ) -> Result<&Note, NoMemory>
        ensures { IfOk result (λ note. note.now ≡ option_copied contamination.entry) }
    {
        let note = match place {
            Some(place) => {
                if self.notes.len() <= place {
                    reach(self.alloc, &mut self.notes, place)?;
                }
                &mut self.notes[place]
            }
            None => &mut self.of_none,
        };
        note.set(contamination)?;
        Ok(note)
    }
}
