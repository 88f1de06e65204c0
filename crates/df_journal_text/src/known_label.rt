//! The label that was read last, which is known by its bytes where it stands again.
ghost use Rattle.std.specs.Prelude.{◌≡◌, ◌≤◌, ◌++◌, IfOk, IfSome, None, Some, Ok, codes, length, drop};
ghost use Rattle.df_value_text.specs.code.Answer.{Gives};
ghost use Rattle.df_value_text.specs.ReadLabel.{label_at};
ghost use Rattle.df_journal_text.specs.code.KnownLabel.{IsKnown, bare_label};
ghost use Rattle.df_journal_text.specs.ReadWords.{named_at, word_at};

use crate::note::is_empty;
use crate::word_reader::{behind, name_word};
use df_frozen::Name;
use df_label::{Label, TagSet};
use df_memory::NoMemory;
use df_value_text::{Fault, between, byte_at, label_at};
use std::alloc::Global;
use std::marker::Model;

/// The last label with tags that was read, if one was, and its word: where the word stands again,
/// its tags aren't read again. A contract sees the label.
#[derive(Drop)]
pub struct KnownLabel {
    label: Option<Label>,
    word: Vec<u8>,
}

impl Model for KnownLabel {
    ghost use Rattle.std.specs.Prelude.{Option};
    ghost use Rattle.std.specs.Coded.{coded_option};
    ghost use Rattle.df_label.specs.contracts.label.Label as content;
    ghost use Rattle.df_label.specs.declared.label.Label.{Label};
    ghost use Rattle.df_journal_text.specs.code.KnownLabel.{IsKnown};

    ghost Value = { Option Label };

    ghost coded = { coded_option content.the_row.coded };

    ghost view = { λ k. k.label };

    ghost invariant = { λ k. IsKnown k.label k.word.items };
}

/// The label without tags.
fn bare_label(alloc: Global) -> Label
    ensures { result ≡ bare_label }
{
    Label {
        s: TagSet::new(alloc),
        i: TagSet::new(alloc),
    }
}

/// The place behind the word of the label without tags, where it stands at the place.
#[inline(always)]
fn bare_end(bytes: &[u8], at: usize) -> Option<usize>
    requires { at ≤ length bytes.now }
    ensures { IfSome result (λ end. (end ≤ length bytes.now)
        × (drop at bytes.now ≡ codes "{|}" ++ drop end bytes.now)) }
{
    match &bytes[at..] {
        [b'{', b'|', b'}', ..] => Some(at + 3),
        _ => None,
    }
}

/// A label that is known, whose word these bytes are.
fn known(alloc: Global, label: &Label, word: &[u8]) -> Result<KnownLabel, NoMemory>
    requires { IsKnown (Some label.now) word.now }
    ensures { IfOk result (λ k. k ≡ Some label.now) }
{
    let label = label.copy()?;
    Ok(KnownLabel {
        label: Some(label),
        word: Vec::from_slice(alloc, word)?,
    })
}

impl KnownLabel {
    /// None is known yet. Takes no memory.
    pub fn new(alloc: Global) -> KnownLabel
        ensures { result ≡ None }
    {
        KnownLabel {
            label: None,
            word: Vec::new(alloc),
        }
    }

    /// The label that is known, where its word stands at the place, and the place behind it.
    #[inline(always)]
    fn standing(&self, bytes: &[u8], at: usize) -> Option<(&Label, usize)>
        requires { at ≤ length bytes.now }
        ensures { IfSome result (λ k. (k.1 ≤ length bytes.now)
            × (label_at (drop at bytes.now) ≡ Ok (k.0.now, drop k.1 bytes.now))) }
    {
        let Some(label) = &self.label else {
            return None;
        };
        let end = behind(bytes, at, self.word.as_slice())?;
        Some((label, end))
    }

    /// The label at the place, which isn't known, and the place behind it. It is known then.
    #[inline(never)]
    fn learned_at(
        &mut self,
        alloc: Global,
        bytes: &[u8],
        at: usize,
    ) -> Result<(Label, usize), Fault>
        requires { at ≤ length bytes.now }
        ensures { Gives (λ l. l) bytes.now result (label_at (drop at bytes.now)) }
    {
        let (label, end) = label_at(alloc, bytes, at)?;
        if !is_empty(&label) {
            *self = known(alloc, &label, between(bytes, at, end))?;
        }
        Ok((label, end))
    }

    /// The label at the place, and the place behind it.
    #[inline(always)]
    pub fn label_at(
        &mut self,
        alloc: Global,
        bytes: &[u8],
        at: usize,
    ) -> Result<(Label, usize), Fault>
        requires { at ≤ length bytes.now }
        ensures { Gives (λ l. l) bytes.now result (label_at (drop at bytes.now)) }
    {
        if let Some(end) = bare_end(bytes, at) {
            return Ok((bare_label(alloc), end));
        }
        match self.standing(bytes, at) {
            Some((label, end)) => Ok((label.copy()?, end)),
            None => self.learned_at(alloc, bytes, at),
        }
    }

    /// The label that is the next word, and the place behind it.
    #[inline(always)]
    pub fn label_word(
        &mut self,
        alloc: Global,
        bytes: &[u8],
        at: usize,
    ) -> Result<(Label, usize), Fault>
        requires { at ≤ length bytes.now }
        ensures { Gives (λ l. l) bytes.now result (word_at label_at (drop at bytes.now)) }
    {
        let (_, start) = byte_at(bytes, at, b' ')?;
        let (label, end) = self.label_at(alloc, bytes, start)?;
        Ok((label, end))
    }

    /// The label and the name that are the next two words, and the place behind them.
    #[inline(always)]
    pub fn named_at(
        &mut self,
        alloc: Global,
        bytes: &[u8],
        at: usize,
    ) -> Result<((Label, Name), usize), Fault>
        requires { at ≤ length bytes.now }
        ensures { Gives (λ n. (n.0, n.1)) bytes.now result (named_at (drop at bytes.now)) }
    {
        let (label, behind) = self.label_word(alloc, bytes, at)?;
        let (name, end) = name_word(bytes, behind)?;
        Ok(((label, name), end))
    }
}
