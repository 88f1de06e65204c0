//! The calls get, create, publish, release and drop, which are read without memory.

ghost use Rattle.std.specs.Prelude.{◌≡◌, ◌≤◌, length, drop};
ghost use Rattle.df_journal_text.specs.Ask.{asked};
ghost use Rattle.df_journal_text.specs.code.Asking.{GivesAsk, letter_in};

use crate::word_reader::{keyword_at, number_word};
use df_unit::Call;
use df_value_text::Fault;

/// A call that is `get`, `create`, `publish`, `release` or `drop`.
#[derive(Clone, Copy, Debug, PartialEq, Eq)]
pub enum Ask {
    Get,
    Create,
    Publish { h: u32 },
    Release { h: u32 },
    Drop { h: u32 },
}

impl Ask {
    /// The call itself.
    pub fn call(self) -> Call
        ensures { result ≡ asked self }
    {
        match self {
            Ask::Get => Call::Get,
            Ask::Create => Call::CreateEvent,
            Ask::Publish { h } => Call::Publish { h },
            Ask::Release { h } => Call::Release { h },
            Ask::Drop { h } => Call::DropEvent { h },
        }
    }
}

/// The byte behind the one at the place, by which keywords are told apart; 0 where none stands
/// there.
fn letter_at(bytes: &[u8], at: usize) -> u8
    requires { at ≤ length bytes.now }
    ensures { result ≡ letter_in (drop at bytes.now) }
{
    match &bytes[at..] {
        [_, letter, ..] => *letter,
        _ => 0,
    }
}

/// The call at the place, where it is one of these, and the place behind it; none where its words
/// are others.
#[inline(always)]
pub fn ask_at(bytes: &[u8], at: usize) -> Result<Option<(Ask, usize)>, Fault>
    requires { at ≤ length bytes.now }
    ensures { GivesAsk bytes.now at result }
{
    match letter_at(bytes, at) {
        b'g' => {
            if let Some(end) = keyword_at(bytes, at, b" get") {
                return Ok(Some((Ask::Get, end)));
            }
        }
        b'c' => {
            if let Some(end) = keyword_at(bytes, at, b" create") {
                return Ok(Some((Ask::Create, end)));
            }
        }
        b'p' => {
            if let Some(start) = keyword_at(bytes, at, b" publish") {
                let (h, end) = number_word(bytes, start)?;
                return Ok(Some((Ask::Publish { h }, end)));
            }
        }
        b'r' => {
            if let Some(start) = keyword_at(bytes, at, b" release") {
                let (h, end) = number_word(bytes, start)?;
                return Ok(Some((Ask::Release { h }, end)));
            }
        }
        b'd' => {
            if let Some(start) = keyword_at(bytes, at, b" drop") {
                let (h, end) = number_word(bytes, start)?;
                return Ok(Some((Ask::Drop { h }, end)));
            }
        }
        _ => (),
    }
    Ok(None)
}
