ghost use Rattle.std.specs.Prelude.{◌≡◌, ◌↔◌, true, IsTrue, IfOk};
ghost use Rattle.df_records.specs.Fields.{is_symbol};

use df_frozen::Words;
use df_memory::NoMemory;
use std::marker::Model;

/// A symbol: 1 to 8 letters `A` to `Z`.
#[derive(Drop)]
pub struct Symbol {
    words: Words,
}

impl Model for Symbol {
    ghost use Rattle.std.specs.Prelude.{◌≡◌, true, ℕ, List};
    ghost use Rattle.df_records.specs.Fields.{is_symbol};

    ghost Value = { List ℕ };

    ghost view = { λ s. s.words };

    ghost invariant = { λ s. is_symbol s.words ≡ true };
}

impl Symbol {
    /// A copy of words that are a symbol.
    pub fn new(words: &Words) -> Result<Symbol, NoMemory>
        requires { is_symbol words.now ≡ true }
        ensures { IfOk result (λ s. s ≡ words.now) }
    {
        let words = words.copy()?;
        Ok(Symbol { words })
    }

    pub fn as_words(&self) -> &Words
        ensures value { result.now ≡ self.now }
        ensures symbol { is_symbol self.now ≡ true }
    {
        &self.words
    }

    /// Whether the symbol is these words.
    pub fn is(&self, words: &Words) -> bool
        ensures { IsTrue result ↔ (self.now ≡ words.now) }
    {
        self.words.as_str() == words.as_str()
    }

    pub fn copy(&self) -> Result<Symbol, NoMemory>
        ensures { IfOk result (λ s. s ≡ self.now) }
    {
        Symbol::new(&self.words)
    }
}

/// Whether the text is a symbol.
pub(crate) fn is_symbol(text: &str) -> bool
    ensures { result ≡ is_symbol text.now }
{
    df_records::is_symbol(text.as_bytes())
}
