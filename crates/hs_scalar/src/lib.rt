//! The functions of SQL on texts: LIKE, SUBSTRING, TRIM, CHAR_LENGTH, UPPER, LOWER and `||`.
#![tactic(auto)]

mod ends;
pub mod laws;
mod letters;
mod matching;
mod pattern;
mod positions;
mod trimming;

pub use letters::{concat, lower, upper};
pub use matching::like;
pub use positions::{char_length, substring};
pub use trimming::{Side, trim};
