//! The tokens of a statement: words, quoted names, numbers, texts and symbols, without the white space
//! and the comments between them.
//!
//! `tokens` gives those of a text, each the longest of the kind that begins at its place, or the first place at which the
//! text can't go on (`specs/Tokens.antt`). What a token says, as the name that a word is or the text that stands in quotes,
//! comes from `name` and `content`.
#![tactic(auto)]

mod bytes;
mod escapes;
mod fault;
mod laws;
mod lengths;
mod lexeme;
mod meaning;
mod scan;
mod token;

pub use fault::LexFault;
pub use laws::{
    quotes_and_escapes_are_undone, tokens_are_slices_in_order, tokens_are_sound,
    tokens_are_the_longest, tokens_are_unique, tokens_say_what_their_quotes_hold,
};
pub use meaning::{between_quotes, content, name, written};
pub use scan::tokens;
pub use token::{Token, TokenKind, Tokens};
