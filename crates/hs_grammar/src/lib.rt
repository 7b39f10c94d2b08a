//! Recognises the sentences of a grammar that is given as data: one token ahead, one stack, one small state.
#![tactic(auto)]

mod machine;
mod recogniser;
mod types;

pub use recogniser::{law_of_leftmost_derivation, law_of_one_answer, recognise};
pub use types::{CLASSES, Fault, Item, Production, Symbol, Tables, View};

#[cfg(test)]
mod tests;
