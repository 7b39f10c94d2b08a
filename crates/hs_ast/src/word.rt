// Names and texts.
ghost use Rattle.std.specs.Prelude.{◌≡◌, IfOk, string_bytes};

use std::alloc::{AllocError, Global};
use std::marker::Model;

/// A name or a literal's text, without quotes and escapes. Contracts see the list of its UTF-8 bytes.
#[derive(Debug, Drop)]
pub struct Word {
    text: String,
}

impl Model for Word {
    ghost use Rattle.std.specs.Prelude.{List, ℕ};
    ghost use Rattle.std.specs.Coded.{coded_list, coded_ℕ};
    ghost use Rattle.std.specs.String.{string_bytes};

    ghost Value = { List ℕ };

    ghost coded = { coded_list coded_ℕ };

    ghost view = { λ w. string_bytes w.text };
}

impl Word {
    /// The word that a `String` spells, without taking memory.
    pub fn from_string(text: String) -> Word
        ensures { result ≡ string_bytes text }
    {
        Word { text }
    }

    /// A copy of a borrowed text.
    pub fn from_text(alloc: Global, text: &str) -> Result<Word, AllocError>
        ensures { IfOk result (λ copied. copied ≡ text.now) }
    {
        Ok(Word {
            text: String::from_str(alloc, text)?,
        })
    }

    /// The `String` of this word, without taking memory.
    pub fn into_string(self) -> String
        ensures { string_bytes result ≡ self }
    {
        self.text
    }

    pub fn as_str(&self) -> &str
        ensures { result.now ≡ self.now }
    {
        self.text.as_str()
    }

    /// A copy, which equals its source.
    pub fn copy(&self, alloc: Global) -> Result<Word, AllocError>
        ensures { IfOk result (λ copied. copied ≡ self.now) }
    {
        Word::from_text(alloc, self.as_str())
    }
}

pub fn copy_word(alloc: Global, word: &Option<Word>) -> Result<Option<Word>, AllocError>
    ensures { IfOk result (λ copied. copied ≡ word.now) }
{
    match word {
        Some(word) => Ok(Some(word.copy(alloc)?)),
        None => Ok(None),
    }
}

/// A name where it stands in a statement.
#[derive(Debug, Drop)]
pub struct Identifier {
    pub name: Word,
    /// The place of its first byte, a quote included.
    pub at: u32,
}

impl Identifier {
    /// A copy, which equals its source.
    pub fn copy(&self, alloc: Global) -> Result<Identifier, AllocError>
        ensures { IfOk result (λ copied. copied ≡ self.now) }
    {
        Ok(Identifier {
            name: self.name.copy(alloc)?,
            at: self.at,
        })
    }
}

pub fn copy_identifier(
    alloc: Global,
    name: &Option<Identifier>,
) -> Result<Option<Identifier>, AllocError>
    ensures { IfOk result (λ copied. copied ≡ name.now) }
{
    match name {
        Some(name) => Ok(Some(name.copy(alloc)?)),
        None => Ok(None),
    }
}
