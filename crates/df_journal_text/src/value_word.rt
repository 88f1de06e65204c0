//! Reading the value that is a word, whose words may have spaces.
ghost use Rattle.std.specs.Prelude.{◌≤◌, length};
ghost use Rattle.df_value_text.specs.Fits.{IsValue};
ghost use Rattle.df_value_text.specs.ReadValue.{value_at};
ghost use Rattle.df_value_text.specs.Value.{value_text};
ghost use Rattle.df_value_text.specs.code.WordEnd.{EndsWord};
ghost use Rattle.df_journal_text.specs.Large.{IsLargeWord};
ghost use Rattle.df_journal_text.specs.Line.{word};
ghost use Rattle.df_journal_text.specs.ReadWords.{word_at};
ghost use Rattle.df_journal_text.specs.code.Judging.{Tells};

use crate::line_fault::LineFault;
use df_frozen::Frozen;
use df_value_text::{byte_at, read_value};
use std::alloc::Global;

/// The value that is the next word, frozen, and the place behind it.
#[inline(always)]
pub fn read_value_word(alloc: Global, bytes: &[u8], at: usize) -> Result<(Frozen, usize), LineFault>
    requires { at ≤ length bytes.now }
    ensures { Tells (λ v. word (value_text v)) IsValue EndsWord IsLargeWord (word_at value_at)
        bytes.now at result }
{
    let (_, start) = byte_at(bytes, at, b' ')?;
    let (value, end) = read_value(alloc, bytes, start)?;
    Ok((value, end))
}
