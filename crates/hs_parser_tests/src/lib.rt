//! What the parser says of texts, from their tokens to their trees: tests alone.
#![tactic(auto)]

#[cfg(test)]
mod tests;
