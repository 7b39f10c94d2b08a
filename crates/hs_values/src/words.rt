// The words of a command line.
ghost use Rattle.std.specs.Prelude.{◌≡◌, ◌∷◌, ◌++◌, [], List, ℕ, length, IfOk, OnOk, OnErr};

use crate::chars::Chars;
use std::alloc::{AllocError, Global};
use std::marker::Model;

/// The words that a program was called with, its own name first. Contracts see the list of texts.
#[derive(Debug, Drop)]
pub struct Words {
    words: Vec<Chars>,
}

impl Model for Words {
    ghost use Rattle.std.specs.Prelude.{List, ℕ};

    ghost Value = { List (List ℕ) };

    ghost view = { λ w. w.words.items };
}

impl Words {
    /// No words. Takes no memory.
    pub fn new(alloc: Global) -> Words
        ensures { result ≡ [] }
    {
        Words {
            words: Vec::new(alloc),
        }
    }

    /// Adds a word at the end. After an `Err`, which is want of memory, nothing is changed.
    pub fn push(&mut self, word: Chars) -> Result<(), AllocError>
        ensures ok { OnOk result (self.new ≡ self.old ++ word ∷ []) }
        ensures err { OnErr result (self.new ≡ self.old) }
    {
        self.words.push(word)?;
        Ok(())
    }

    pub fn as_slice(&self) -> &[Chars]
        ensures { result.now ≡ self.now }
    {
        &self.words
    }

    /// The same words in memory of its own, with room for nothing more. An `Err` is want of memory, and
    /// what was copied by then is given back.
    pub fn copy(&self) -> Result<Words, AllocError>
        ensures { IfOk result (λ copied. copied ≡ self.now) }
    {
        let mut words = Vec::with_capacity(*self.words.allocator(), self.words.len())?;
        for word in &self.words {
            words.push(word.copy()?)?;
        }
        Ok(Words { words })
    }
}
