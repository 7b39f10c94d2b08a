//! What the calls on values answer, where other programs compared, cut, sorted and reckoned them: tests alone.
#![tactic(auto)]

#[cfg(test)]
mod tests;
