//! Journals that are gone over entry by entry.
ghost use Rattle.std.specs.Prelude.{◌≡◌, ◌≤◌, ◌<◌, ◌+◌, ◌++◌, ◌∷◌, ◌↔◌, false, List, ℕ, [], drop, length, IfErr, IfOk, IfSome, IsTrue};
ghost use Rattle.df_start.specs.declared.start.RootStart.{RootStart};
ghost use Rattle.df_unit.specs.declared.entry.Noted.{Noted};
ghost use Rattle.df_unit.specs.declared.name.UnitName.TheVariants.{Root};
ghost use Rattle.df_journal_text.specs.Ask.{asked};
ghost use Rattle.df_journal_text.specs.Entry.{noted_text};
ghost use Rattle.df_journal_text.specs.Front.{call_front};
ghost use Rattle.df_script_text.specs.Common.{common_line, root_call};
ghost use Rattle.df_script_text.specs.Script.{IsScriptLine};
ghost use Rattle.df_journal_file.specs.Cursor.{GoesOn, HasPassed};
ghost use Rattle.df_journal_file.specs.Either.{IsEitherText};
ghost use Rattle.df_journal_file.specs.code.Entries.{IsWholeBy};
ghost use Rattle.df_journal_file.specs.code.Languages.{EntriesFrom};
ghost use Rattle.df_journal_file.specs.code.Stops.{StopsIn};

use crate::entry::entry_at;
use crate::file::{is_end, version_at};
use df_journal_text::KnownLabel;
use df_lines::FileFault;
use df_script_text::{
    CommonLine, ReadLine, RootLine, call_at, common_call_at, root_call_at, roots_at,
};
use df_start::Start;
use df_unit::Noted;
use std::alloc::Global;
use std::marker::Model;

/// A journal that is gone over: its bytes, whether its entries have notes, and the place behind
/// those that were read.
#[derive(Drop)]
pub struct JournalCursor<'a> {
    alloc: Global,
    bytes: &'a [u8],
    has_notes: bool,
    place: usize,
    known: KnownLabel,
}

impl<'a> Model for JournalCursor<'a> {
    ghost use Rattle.std.specs.Prelude.{◌≤◌, length};
    ghost use Rattle.df_journal_file.specs.Cursor.{CursorState, cursor_code};

    ghost Value = { CursorState };

    ghost coded = { cursor_code };

    ghost view = { λ c. record { bytes = c.bytes.now; has_notes = c.has_notes; place = c.place } };

    ghost invariant = { λ c. c.place ≤ length c.bytes.now };
}

impl<'a> JournalCursor<'a> {
    /// Reads what stands before a journal's entries, in the version that its first line names.
    pub fn begin(alloc: Global, bytes: &'a [u8]) -> Result<(Start, JournalCursor<'a>), FileFault>
        ensures read { IfOk result (λ s. HasPassed s.0 [] s.1) }
        ensures bytes { IfOk result (λ s. s.1.bytes ≡ bytes.now) }
        ensures stops { IfErr result (StopsIn IsEitherText bytes.now 0) }
    {
        let (has_notes, at) = version_at(bytes)?;
        let (start, place) = roots_at(alloc, bytes, at)?;
        Ok((
            start,
            JournalCursor {
                alloc,
                bytes,
                has_notes,
                place,
                known: KnownLabel::new(alloc),
            },
        ))
    }

    /// Whether the journal is in its second version, which notes contaminations.
    pub fn has_notes(&self) -> bool
        ensures { result ≡ self.now.has_notes }
    {
        self.has_notes
    }

    /// The call with which the next entry begins, where its line is a common one.
    pub fn common(&self) -> Option<CommonLine<'a>>
        ensures words { IfSome result (λ c.
            c.words.now ≡ call_front (Root (c.root ∷ [])) (asked c.ask)) }
        ensures fits { IfSome result (λ c. IsScriptLine (common_line c.root c.ask)) }
    {
        let (line, _) = common_call_at(self.bytes, self.place)?;
        Some(line)
    }

    /// The call with which the next entry begins, where a root makes it and it can be read.
    pub fn root_call(&mut self) -> Option<RootLine<'a>>
        ensures words { IfSome result (λ r.
            r.words.now ≡ call_front (Root (r.root ∷ [])) r.call) }
        ensures fits { IfSome result (λ r. IsScriptLine (root_call r.root r.call)) }
        ensures same { self.new ≡ self.old }
    {
        let (line, _) = root_call_at(self.alloc, &mut self.known, self.bytes, self.place)?;
        Some(line)
    }

    /// The call with which the next entry begins, where one can be read.
    pub fn call(&mut self) -> Option<ReadLine<'a>>
        ensures words { IfSome result (λ r.
            r.words.now ≡ call_front r.line.actor r.line.call) }
        ensures fits { IfSome result (λ r. IsScriptLine r.line) }
        ensures same { self.new ≡ self.old }
    {
        let (read, _) = call_at(self.alloc, &mut self.known, self.bytes, self.place)?;
        Some(read)
    }

    /// Passes these bytes, where they are the next: whether they are. An entry whose lines they are
    /// is then read.
    pub fn pass(&mut self, lines: &[u8]) -> bool
        ensures stands { IsTrue result ↔ ((rest : List ℕ)
            × (drop self.old.place self.old.bytes ≡ lines.now ++ rest)) }
        ensures passed { IsTrue result → (roots : List RootStart) (notes : List Noted)
            (noted : Noted) → HasPassed roots notes self.old → IsWholeBy self.old.has_notes noted
            → lines.now ≡ noted_text noted → HasPassed roots (notes ++ noted ∷ []) self.new }
        ensures further { IsTrue result → self.new.place ≡ self.old.place + length lines.now }
        ensures within { self.new.place ≤ length self.new.bytes }
        ensures bytes { self.new.bytes ≡ self.old.bytes }
        ensures version { self.new.has_notes ≡ self.old.has_notes }
        ensures same { result ≡ false → self.new ≡ self.old }
    {
        if !self.bytes[self.place..].starts_with(lines) {
            return false;
        }
        self.place += lines.len();
        true
    }

    /// The next entry, which is no longer kept here; none behind the last.
    pub fn next_entry(&mut self) -> Result<Option<Noted>, FileFault>
        ensures next { IfOk result (λ read. (roots : List RootStart) (notes : List Noted)
            → HasPassed roots notes self.old → GoesOn roots notes read self.new) }
        ensures further { IfOk result (λ read. IfSome read (λ _. self.old.place < self.new.place)) }
        ensures within { self.new.place ≤ length self.new.bytes }
        ensures bytes { self.new.bytes ≡ self.old.bytes }
        ensures version { self.new.has_notes ≡ self.old.has_notes }
        ensures stops { IfErr result
            (StopsIn (EntriesFrom self.old.has_notes) self.old.bytes self.old.place) }
    {
        if is_end(self.bytes, self.place) {
            return Ok(None);
        }
        let (noted, next) = entry_at(self.alloc, self.bytes, self.place, self.has_notes)?;
        self.place = next;
        Ok(Some(noted))
    }
}
