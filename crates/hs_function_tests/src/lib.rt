//! What the operators, predicates and functions of SQL give on values, worked out by hand: tests alone.
#![tactic(auto)]

#[cfg(test)]
mod operations;
#[cfg(test)]
mod tests;
#[cfg(test)]
mod texts;
