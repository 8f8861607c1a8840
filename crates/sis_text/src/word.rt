//! A word of the command line or of a script, as owned text. Contracts see it as the list of its
//! bytes, and a copy equals its source.

ghost use Rattle.std.specs.Prelude.{◌≡◌, IfOk};

use std::alloc::{AllocError, Global};
use std::convert::AsStr;
use std::marker::Model;

/// A word, which contracts see as its text, the list of its bytes.
#[derive(Debug, Drop)]
pub struct Word {
    text: String,
}

impl Model for Word {
    ghost use Rattle.std.specs.Prelude.{List, ℕ, string_bytes};

    ghost Value = { List ℕ };

    ghost view = { λ word. string_bytes word.text };
}

impl Word {
    /// The word of a text.
    pub fn new(alloc: Global, text: &str) -> Result<Self, AllocError>
        ensures { IfOk result (λ word. word ≡ text.now) }
    {
        Ok(Word {
            text: String::from_str(alloc, text)?,
        })
    }

    /// The text that was given; takes no memory.
    pub fn text(&self) -> &str
        ensures { result.now ≡ self.now }
    {
        self.text.as_str()
    }

    /// A copy.
    pub fn copy(&self, alloc: Global) -> Result<Self, AllocError>
        ensures { IfOk result (λ word. word ≡ self.now) }
    {
        Word::new(alloc, self.text())
    }
}

impl AsStr for Word {
    ghost text = { λ word. word };

    fn as_str(&self) -> &str {
        self.text()
    }
}
