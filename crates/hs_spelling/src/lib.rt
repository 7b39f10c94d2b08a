//! Which tokens spell which tree.
//!
//! `specs` defines it by the tree, from the bottom: what one token spells (`Tokens.antt`), literals, types and names
//! (`Literals.antt`), expressions and queries (`Expressions.antt`), and statements (`Statements.antt`). A relation `Spells.. tree from
//! rest` says that the tokens `from` begin with those that spell the tree, and that `rest` are behind them. An expression or a
//! query body has a level, which is how closely it binds; places are those of the tokens.
//!
//! Here are the laws that tie it to `statement` of `hs_parser`. Nothing is computed.
#![tactic(auto)]

mod laws;

pub use laws::{readings_build_what_they_spell, statements_are_spelled_by_their_tokens};
