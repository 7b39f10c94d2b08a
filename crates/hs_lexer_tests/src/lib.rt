//! What the lexer says of texts, worked out by hand: tests alone.
#![tactic(auto)]

#[cfg(test)]
mod tests;
