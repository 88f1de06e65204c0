//! Words: a text that is a value.

ghost use Rattle.std.specs.Prelude.{◌≡◌, IfOk};

use df_memory::NoMemory;
use std::alloc::Global;
use std::marker::Model;

/// A text.
#[derive(Drop)]
pub struct Words {
    text: String,
}

impl Model for Words {
    ghost use Rattle.std.specs.Prelude.{ℕ, List, string_bytes};

    ghost Value = { List ℕ };

    ghost view = { λ w. string_bytes w.text };
}

impl Words {
    /// Copies the text.
    pub fn new(alloc: Global, text: &str) -> Result<Words, NoMemory>
        ensures { IfOk result (λ words. words ≡ text.now) }
    {
        Ok(Words {
            text: String::from_str(alloc, text)?,
        })
    }

    pub fn as_str(&self) -> &str
        ensures { result.now ≡ self.now }
    {
        self.text.as_str()
    }

    pub fn copy(&self) -> Result<Words, NoMemory>
        ensures { IfOk result (λ words. words ≡ self.now) }
    {
        Words::new(*self.text.allocator(), self.as_str())
    }
}

/// That text and no copy.
impl From<String> for Words {
    ghost use Rattle.std.specs.Prelude.{string_bytes};

    ghost from_gives = { λ text words. words ≡ string_bytes text };

    fn from(text: String) -> Words {
        Words { text }
    }
}
