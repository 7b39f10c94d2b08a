//! What the calls of `hs_rel` answer on small bags of rows, worked out by hand: tests alone.
#![tactic(auto)]

#[cfg(test)]
mod keys;
#[cfg(test)]
mod tests;
#[cfg(test)]
mod texts;
