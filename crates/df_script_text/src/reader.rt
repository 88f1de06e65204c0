//! Scripts that are read line by line.

ghost use Rattle.std.specs.Prelude.{◌≡◌, ◌≤◌, ◌<◌, ◌++◌, ◌∷◌, List, [], length, option_map, IfErr, IfNone, IfOk, IfSome};
ghost use Rattle.df_lines.specs.Refused.{NamesBadLine};
ghost use Rattle.df_lines.specs.code.Faults.{IsInside};
ghost use Rattle.df_lines.specs.code.Stops.{StopsBy};
ghost use Rattle.df_start.specs.declared.start.RootStart.{RootStart};
ghost use Rattle.df_journal_text.specs.Front.{call_front};
ghost use Rattle.df_journal_text.specs.Ask.{asked};
ghost use Rattle.df_unit.specs.declared.name.UnitName.TheVariants.{Root};
ghost use Rattle.df_script_text.specs.Common.{common_line, root_call};
ghost use Rattle.df_script_text.specs.Reader.{GoesOn, HasRead, HasReadUpTo};
ghost use Rattle.df_script_text.specs.Script.{IsScriptText};
ghost use Rattle.df_script_text.specs.TooLarge.{IsTooLargeIn};
ghost use Rattle.df_script_text.specs.code.Stops.{IsFirstAt, StopsFirst};
ghost use Rattle.df_script_text.specs.declared.line.ScriptLine.{ScriptLine};

use crate::common::{CommonLine, RootLine, call_line_at, common_at};
use crate::line::{ReadLine, fault_of, read_line, words_at};
use crate::root::roots_at;
use df_journal_text::KnownLabel;
use df_lines::{FileFault, FileRefused, file_refused, line_at};
use df_start::Start;
use std::alloc::Global;
use std::marker::Model;

/// A script that is being read: its bytes, and the place behind the lines that were read.
#[derive(Drop)]
pub struct ScriptReader<'a> {
    alloc: Global,
    bytes: &'a [u8],
    place: usize,
    known: KnownLabel,
}

impl<'a> Model for ScriptReader<'a> {
    ghost use Rattle.std.specs.Prelude.{◌≤◌, length};
    ghost use Rattle.df_script_text.specs.Reader.{ReaderState, reader_code};

    ghost Value = { ReaderState };

    ghost coded = { reader_code };

    ghost view = { λ r. record { bytes = r.bytes.now; place = r.place } };

    ghost invariant = { λ r. r.place ≤ length r.bytes.now };
}

/// The place behind the first line.
fn first_at(bytes: &[u8]) -> Result<usize, FileFault>
    ensures read { IfOk result (IsFirstAt bytes.now) }
    ensures stops { IfErr result (StopsFirst bytes.now) }
{
    let Some((line, next)) = line_at(bytes, 0) else {
        return Err(FileFault::Bad(0));
    };
    if line != b"defcon-script 1".as_slice() {
        return Err(FileFault::Bad(0));
    }
    Ok(next)
}

/// The start of a script, and the place behind it; or a place in the first bad line.
fn start_at(alloc: Global, bytes: &[u8]) -> Result<(Start, usize), FileFault>
    ensures read { IfOk result (λ s. HasReadUpTo bytes.now s.0 [] s.1) }
    ensures inside { IfErr result (IsInside bytes.now) }
    ensures stops { IfErr result (StopsBy IsScriptText IsTooLargeIn bytes.now 0) }
{
    let roots = first_at(bytes)?;
    roots_at(alloc, bytes, roots)
}

impl<'a> ScriptReader<'a> {
    /// Reads the start of a script. Its calls are left.
    pub fn begin(alloc: Global, bytes: &'a [u8]) -> Result<(Start, ScriptReader<'a>), FileRefused>
        ensures read { IfOk result (λ s. HasRead s.0 [] s.1) }
        ensures bytes { IfOk result (λ s. s.1.bytes ≡ bytes.now) }
        ensures refused { IfErr result (NamesBadLine IsScriptText IsTooLargeIn bytes.now) }
    {
        match start_at(alloc, bytes) {
            Ok((start, place)) => Ok((
                start,
                ScriptReader {
                    alloc,
                    bytes,
                    place,
                    known: KnownLabel::new(alloc),
                },
            )),
            Err(fault) => Err(file_refused(bytes, fault)),
        }
    }

    /// The next call, where its line is a common one; else none, and nothing is read. When that is
    /// is left open: `next_line` reads each line that this leaves, and tells what is bad.
    pub fn next_common(&mut self) -> Option<CommonLine<'a>>
        ensures next { IfSome result (λ c. (roots : List RootStart) (lines : List ScriptLine)
            → HasRead roots lines self.old
            → HasRead roots (lines ++ common_line c.root c.ask ∷ []) self.new) }
        ensures words { IfSome result (λ c.
            c.words.now ≡ call_front (Root (c.root ∷ [])) (asked c.ask)) }
        ensures further { IfSome result (λ _. self.old.place < self.new.place) }
        ensures within { self.new.place ≤ length self.new.bytes }
        ensures bytes { self.new.bytes ≡ self.old.bytes }
        ensures same { IfNone result (self.new ≡ self.old) }
    {
        let (line, next) = common_at(self.bytes, self.place)?;
        self.place = next;
        Some(line)
    }

    /// The next call, where a root makes it; else none, and nothing is read. None may also come
    /// where memory is wanting. When it comes is left open: `next_line` reads each line that this
    /// leaves.
    pub fn next_root(&mut self) -> Option<RootLine<'a>>
        ensures next { IfSome result (λ r. (roots : List RootStart) (lines : List ScriptLine)
            → HasRead roots lines self.old
            → HasRead roots (lines ++ root_call r.root r.call ∷ []) self.new) }
        ensures words { IfSome result (λ r. r.words.now ≡ call_front (Root (r.root ∷ [])) r.call) }
        ensures further { IfSome result (λ _. self.old.place < self.new.place) }
        ensures within { self.new.place ≤ length self.new.bytes }
        ensures bytes { self.new.bytes ≡ self.old.bytes }
        ensures same { IfNone result (self.new ≡ self.old) }
    {
        let (line, next) = call_line_at(self.alloc, &mut self.known, self.bytes, self.place)?;
        self.place = next;
        Some(line)
    }

    /// The next call; none behind the last.
    pub fn next_line(&mut self) -> Result<Option<ReadLine<'a>>, FileRefused>
        ensures next { IfOk result (λ read. (roots : List RootStart) (lines : List ScriptLine)
            → HasRead roots lines self.old
            → GoesOn roots lines (option_map (λ r. r.line) read) self.new) }
        ensures words { IfOk result (λ read. IfSome read (λ r.
            r.words.now ≡ call_front r.line.actor r.line.call)) }
        ensures further { IfOk result (λ read. IfSome read (λ _. self.old.place < self.new.place)) }
        ensures within { self.new.place ≤ length self.new.bytes }
        ensures bytes { self.new.bytes ≡ self.old.bytes }
        ensures refused { IfErr result (λ e. (roots : List RootStart) (lines : List ScriptLine)
            → HasRead roots lines self.old
            → NamesBadLine IsScriptText IsTooLargeIn self.old.bytes e) }
    {
        let (words, next) = match words_at(self.alloc, self.bytes, self.place) {
            Ok(Some(line)) => line,
            Ok(None) => return Ok(None),
            Err(fault) => return Err(file_refused(self.bytes, fault)),
        };
        match read_line(self.alloc, words) {
            Ok(line) => {
                self.place = next;
                Ok(Some(ReadLine { words, line }))
            }
            Err(fault) => Err(file_refused(self.bytes, fault_of(self.place, fault))),
        }
    }
}
