//! What conditions ask of columns, worked out by hand: tests alone.
#![tactic(auto)]

#[cfg(test)]
mod tests;
