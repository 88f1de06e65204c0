//! Reading the lines of a journal, each without its line feed.
ghost use Rattle.std.specs.Prelude.{◌≤◌, ◌∷◌, [], length, drop};
ghost use Rattle.df_format.specs.Reading.{behind_at};
ghost use Rattle.df_value_text.specs.ReadLabel.{label_at};
ghost use Rattle.df_value_text.specs.code.Answer.{Gives};
ghost use Rattle.df_journal_text.specs.Entry.{call_line, part_line, read_line};
ghost use Rattle.df_journal_text.specs.Fits.{IsCalled, IsPart, IsPartRead};
ghost use Rattle.df_journal_text.specs.Large.{IsLargeCalled, IsLargePart, IsLargeShown};
ghost use Rattle.df_journal_text.specs.ReadWords.{named_at, word_at};
ghost use Rattle.df_journal_text.specs.code.Judging.{IsWhole, TellsLine, answer_at};

use crate::call_reader::read_call_at;
use crate::known_label::KnownLabel;
use crate::line_fault::LineFault;
use crate::name_reader::unit_at;
use crate::reply_reader::reply_at;
use crate::value_word::read_value_word;
use crate::word_reader::{label_word, named_at, privileges_at};
use df_frozen::Name;
use df_label::Label;
use df_part::Part;
use df_unit::{Call, PartRead, Reply, UnitName};
use df_value_text::{Fault, text_at};
use std::alloc::Global;

/// What was read, if it ends where the line does.
pub fn whole<X: Drop>(line: &[u8], read: Result<(X, usize), Fault>) -> Result<X, LineFault>
    ensures { IsWhole (length line.now) read result }
{
    match read {
        Ok((x, end)) => {
            if end == line.len() {
                Ok(x)
            } else {
                Err(LineFault::Syntax)
            }
        }
        Err(fault) => Err(LineFault::from(fault)),
    }
}

/// The reply behind the arrow at the place, and the place behind it.
fn answer_at(alloc: Global, line: &[u8], at: usize) -> Result<(Reply, usize), Fault>
    requires { at ≤ length line.now }
    ensures { Gives (λ r. r) line.now result (answer_at (drop at line.now)) }
{
    let (_, start) = text_at(line, at, b" ->")?;
    reply_at(alloc, line, start)
}

/// The line of a unit's call and its reply. What a read shows stands in lines of its own.
pub fn read_call_line(alloc: Global, line: &[u8]) -> Result<(UnitName, Call, Reply), LineFault>
    ensures { TellsLine (λ c. call_line c.0 c.1 c.2) IsCalled IsLargeCalled line.now result }
{
    let (actor, behind) = unit_at(alloc, line, 0)?;
    let (call, arrow) = read_call_at(alloc, &mut KnownLabel::new(alloc), line, behind)?;
    let reply = whole(line, answer_at(alloc, line, arrow))?;
    Ok((actor, call, reply))
}

/// A label and a name behind a mark, and the place behind them.
fn marked_at(alloc: Global, line: &[u8], mark: &[u8]) -> Result<((Label, Name), usize), Fault>
    ensures { Gives (λ n. (n.0, n.1)) line.now result (behind_at mark.now named_at line.now) }
{
    let (_, start) = text_at(line, 0, mark)?;
    named_at(alloc, line, start)
}

/// The line of a part behind a mark.
pub fn read_part_line(alloc: Global, line: &[u8], mark: &[u8]) -> Result<Part, LineFault>
    ensures { TellsLine (part_line mark.now) IsPart (IsLargePart mark.now) line.now result }
{
    let ((label, name), behind) = marked_at(alloc, line, mark)?;
    let (value, after) = read_value_word(alloc, line, behind)?;
    let privileges = whole(line, privileges_at(alloc, line, after))?;
    Ok(Part {
        name,
        label,
        value,
        privileges,
    })
}

/// A label behind `:`, and the place behind it.
fn shown_at(alloc: Global, line: &[u8]) -> Result<(Label, usize), Fault>
    ensures { Gives (λ l. l) line.now result (behind_at (58 ∷ []) (word_at label_at) line.now) }
{
    let (_, start) = text_at(line, 0, b":")?;
    label_word(alloc, line, start)
}

/// The line of what a read shows of a part.
pub fn read_shown_line(alloc: Global, line: &[u8]) -> Result<PartRead, LineFault>
    ensures { TellsLine read_line IsPartRead IsLargeShown line.now result }
{
    let (label, behind) = shown_at(alloc, line)?;
    let (value, after) = read_value_word(alloc, line, behind)?;
    let privileges = whole(line, privileges_at(alloc, line, after))?;
    Ok(PartRead {
        label,
        value,
        privileges,
    })
}
