// Tokens, and lists of them.
ghost use Rattle.std.specs.Prelude.{◌≡◌, ◌∷◌, ◌++◌, [], ◌↔◌, IsTrue, length, IfOk, OnOk, OnErr};

use std::alloc::{AllocError, Global};
use std::marker::Model;

#[derive(Clone, Copy, Debug, PartialEq, Eq)]
pub enum TokenKind {
    /// A letter or `_`, and then letters, digits and `_`.
    Word,
    /// A name in `"`.
    Quoted,
    /// Digits, or digits with a point and digits behind it.
    Number,
    /// A text in `'`.
    Text,
    /// A text in `'` behind `U&`, in which a `\` begins an escape.
    UnicodeText,
    /// One of `( ) , . * + - / = <> != < <= > >= || ;`.
    Symbol,
}

/// A slice of a text: its kind, and the places of its first byte and of the byte behind it.
#[derive(Clone, Copy, Debug, PartialEq, Eq)]
pub struct Token {
    pub kind: TokenKind,
    pub start: u32,
    pub end: u32,
}

/// The tokens of a text. Contracts see the list.
#[derive(Debug, Drop)]
pub struct Tokens {
    tokens: Vec<Token>,
}

impl Model for Tokens {
    ghost use Rattle.std.specs.Prelude.{List};
    ghost use Rattle.hs_lexer.specs.declared.token.Token.{Token};

    ghost Value = { List Token };

    ghost view = { λ l. l.tokens.items };
}

impl Tokens {
    /// The empty list. Takes no memory.
    pub fn new(alloc: Global) -> Tokens
        ensures { result ≡ [] }
    {
        Tokens {
            tokens: Vec::new(alloc),
        }
    }

    /// The empty list, with room for as many.
    pub fn with_capacity(alloc: Global, capacity: usize) -> Result<Tokens, AllocError>
        ensures { IfOk result (λ tokens. tokens ≡ []) }
    {
        Ok(Tokens {
            tokens: Vec::with_capacity(alloc, capacity)?,
        })
    }

    /// The list of a vector, without taking memory.
    pub fn from_vec(tokens: Vec<Token>) -> Tokens
        ensures { result ≡ tokens.items }
    {
        Tokens { tokens }
    }

    /// The vector of this list, without taking memory.
    pub fn into_vec(self) -> Vec<Token>
        ensures { result.items ≡ self }
    {
        self.tokens
    }

    pub fn as_slice(&self) -> &[Token]
        ensures { result.now ≡ self.now }
    {
        &self.tokens
    }

    pub fn len(&self) -> usize
        ensures { result ≡ length self.now }
    {
        self.tokens.len()
    }

    pub fn is_empty(&self) -> bool
        ensures { IsTrue result ↔ (self.now ≡ []) }
    {
        self.tokens.is_empty()
    }

    /// Adds one at the end. After an `Err`, which is want of memory, nothing is changed.
    pub fn push(&mut self, token: Token) -> Result<(), AllocError>
        ensures ok { OnOk result (self.new ≡ self.old ++ token ∷ []) }
        ensures err { OnErr result (self.new ≡ self.old) }
    {
        self.tokens.push(token)?;
        Ok(())
    }
}
