//! The canonical text of the conditions of CHECK over a table's columns, as it is written. It is the expression with each operator and
//! each predicate in one pair of parentheses, columns by their names alone, and literals as values are written. What the source may
//! leave out is left out where the source leaves it out, as bound expressions keep that.
//!
//! Every bound expression has a text here, so that printing asks nothing. Whether a text is read as its condition again isn't said.
#![tactic(auto)]

mod literals;
mod operators;
mod printing;
mod words;

pub use printing::print_condition;
