//! What the aggregates give of short lists of values, worked out by hand: tests alone.
#![tactic(auto)]

#[cfg(test)]
mod tests;
#[cfg(test)]
mod texts;
