//! What is asked of conditions of CHECK where a log is to have them, as a trait: that none of those that have a text has a query or an
//! aggregate, and that it can be told which have one.
#![tactic(auto)]

mod check_texts;

pub use check_texts::CheckTexts;
