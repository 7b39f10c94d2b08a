//! The trees of statements from their tokens.
//!
//! `statement` answers the tree exactly where the tokens are a statement of the grammar as one reads it
//! (`specs/Literal.antt` of `hs_syntax`), and else the place of the first token with which none begins any more (`specs/Parsed.antt`).
//! The grammar is that of `hs_syntax`, as data; the marks between its tokens say by which steps of `hs_builder` the tree is
//! built (`specs/Building.antt`).
#![tactic(auto)]

mod building;
mod laws;
mod marks;
mod parse;
mod syntax_fault;

pub use laws::{items_build_one_behind_another, no_part_is_missing};
pub use parse::statement;
pub use syntax_fault::SyntaxFault;
