//! A word that is a label.
ghost use Rattle.df_words.specs.Words.{IsLabelIn};

use crate::command::WordsRefused;
use df_label::Label;
use df_value_text::{TextRefused, read_label};
use std::alloc::Global;

/// The label that the whole word spells.
pub fn label_in(alloc: Global, word: &str) -> Result<Label, WordsRefused>
    ensures { IsLabelIn word.now result }
{
    match read_label(alloc, word.as_bytes(), 0) {
        Ok((label, end)) => {
            if end == word.len() {
                Ok(label)
            } else {
                Err(WordsRefused::Usage)
            }
        }
        Err(TextRefused::NoMemory) => Err(WordsRefused::NoMemory),
        Err(TextRefused::Syntax { .. }) => Err(WordsRefused::Usage),
        Err(TextRefused::TooLarge { .. }) => Err(WordsRefused::Usage),
    }
}
