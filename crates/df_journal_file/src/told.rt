//! What one line tells, without its line feed.
ghost use Rattle.std.specs.Prelude.{List, [], ℕ, ◌∷◌, ◌≡◌};
ghost use Rattle.df_format.specs.Reading.{behind_at};
ghost use Rattle.df_value_text.specs.Fits.{IsLabel};
ghost use Rattle.df_value_text.specs.ReadLabel.{label_at};
ghost use Rattle.df_value_text.specs.code.Answer.{Gives};
ghost use Rattle.df_journal_text.specs.Entry.{call_line, part_line, read_line, spot_line};
ghost use Rattle.df_journal_text.specs.Fits.{IsCalled, IsEvent, IsPart, IsPartRead, IsSpot};
ghost use Rattle.df_journal_text.specs.Large.{IsLargeCalled, IsLargePart, IsLargeShown};
ghost use Rattle.df_journal_text.specs.ReadEntry.{deleted_at};
ghost use Rattle.df_journal_text.specs.ReadName.{event_at};
ghost use Rattle.df_journal_text.specs.ReadWords.{word_at};
ghost use Rattle.df_journal_text.specs.code.Judging.{TellsLine, ended};
ghost use Rattle.df_journal_text.proofs.Frames.{spelled_small};
ghost use Rattle.df_journal_text.proofs.LineTells.{called, called_parts, part_frame, part_parts, shown_frame, shown_parts};
ghost use Rattle.df_journal_file.specs.Below.{event_line, note_line};

use df_journal_text::{
    LineFault, event_at, label_word, read_call_line, read_part_line, read_shown_line, whole,
};
use df_label::Label;
use df_part::{PartRef, Spot};
use df_unit::{Call, EventName, PartRead, Reply, UnitName};
use df_value_text::{Fault, byte_at, name_at, text_at};
use std::alloc::Global;

/// What a line tells, behind a mark where several marks are such a line's.
pub trait Told: Drop {
    // How it is spelled behind this mark.
    ghost text: { List ℕ → Self → List ℕ };

    // Whether it fits the line.
    ghost Fits: { Self → Type 0 };

    // Whether a value in the line behind this mark is too large.
    ghost IsLarge: { List ℕ → List ℕ → Type 0 };

    fn read(alloc: Global, line: &[u8], mark: &[u8]) -> Result<Self, LineFault>
        ensures { TellsLine (text mark.now) Fits (IsLarge mark.now) line.now result };

    // No value is too large in what is spelled.
    ghost small: { (mark line : List ℕ) (x : Self) → Fits x → ended line ≡ text mark x
        → ¬ IsLarge mark line };
}

/// A call and its reply.
impl Told for (UnitName, Call, Reply) {
    ghost text = { λ _ c. call_line c.0 c.1 c.2 };

    ghost Fits = { IsCalled };

    ghost IsLarge = { λ _. IsLargeCalled };

    ghost small = { λ _ line. spelled_small called line called_parts };

    fn read(
        alloc: Global,
        line: &[u8],
        _mark: &[u8],
    ) -> Result<(UnitName, Call, Reply), LineFault> {
        read_call_line(alloc, line)
    }
}

/// What a read shows of a part.
impl Told for PartRead {
    ghost text = { λ _. read_line };

    ghost Fits = { IsPartRead };

    ghost IsLarge = { λ _. IsLargeShown };

    ghost small = { λ _ line. spelled_small shown_frame line shown_parts };

    fn read(alloc: Global, line: &[u8], _mark: &[u8]) -> Result<PartRead, LineFault> {
        read_shown_line(alloc, line)
    }
}

/// A part behind a mark.
impl Told for PartRef {
    ghost text = { part_line };

    ghost Fits = { IsPart };

    ghost IsLarge = { IsLargePart };

    ghost small = { λ mark line. spelled_small (part_frame mark) line (part_parts mark) };

    fn read(alloc: Global, line: &[u8], mark: &[u8]) -> Result<PartRef, LineFault> {
        let part = read_part_line(alloc, line, mark)?;
        Ok(PartRef::new(alloc, part)?)
    }
}

/// The label behind the mark, and the place behind it.
fn marked_label_at(alloc: Global, line: &[u8], mark: &[u8]) -> Result<(Label, usize), Fault>
    ensures { Gives (λ l. l) line.now result (behind_at mark.now (word_at label_at) line.now) }
{
    let (_, start) = text_at(line, 0, mark)?;
    let (label, end) = label_word(alloc, line, start)?;
    Ok((label, end))
}

/// A contamination that is noted.
impl Told for Label {
    ghost text = { λ _. note_line };

    ghost Fits = { IsLabel };

    ghost IsLarge = { λ _ _. ⊥ };

    ghost small = { λ _ _ _ _ _ none. none };

    fn read(alloc: Global, line: &[u8], _mark: &[u8]) -> Result<Label, LineFault> {
        whole(line, marked_label_at(alloc, line, b"@"))
    }
}

/// The event behind the mark, and the place behind it.
fn marked_event_at(alloc: Global, line: &[u8], mark: &[u8]) -> Result<(EventName, usize), Fault>
    ensures { Gives (λ e. e) line.now result (behind_at mark.now (word_at event_at) line.now) }
{
    let (_, start) = text_at(line, 0, mark)?;
    let (_, place) = byte_at(line, start, b' ')?;
    let (event, end) = event_at(alloc, line, place)?;
    Ok((event, end))
}

/// An event behind a mark.
impl Told for EventName {
    ghost text = { event_line };

    ghost Fits = { IsEvent };

    ghost IsLarge = { λ _ _. ⊥ };

    ghost small = { λ _ _ _ _ _ none. none };

    fn read(alloc: Global, line: &[u8], mark: &[u8]) -> Result<EventName, LineFault> {
        whole(line, marked_event_at(alloc, line, mark))
    }
}

/// The spot behind `-`, and the place behind it.
fn marked_spot_at(alloc: Global, line: &[u8]) -> Result<(Spot, usize), Fault>
    ensures { Gives (λ s. s) line.now result (behind_at (45 ∷ []) deleted_at line.now) }
{
    let (label, behind) = marked_label_at(alloc, line, b"-")?;
    let (_, place) = byte_at(line, behind, b' ')?;
    let (name, end) = name_at(line, place)?;
    Ok((Spot { name, label }, end))
}

/// A spot that a commit deletes.
impl Told for Spot {
    ghost text = { λ _. spot_line };

    ghost Fits = { IsSpot };

    ghost IsLarge = { λ _ _. ⊥ };

    ghost small = { λ _ _ _ _ _ none. none };

    fn read(alloc: Global, line: &[u8], _mark: &[u8]) -> Result<Spot, LineFault> {
        whole(line, marked_spot_at(alloc, line))
    }
}
