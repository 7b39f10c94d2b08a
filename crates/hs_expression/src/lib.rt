//! What an expression gives over the rows around it, as a step for each layer of its tree, in `specs/`: operands from
//! left to right, the first fault the expression's. A value that decides ends it: AND at FALSE, OR at TRUE, BETWEEN at a
//! first FALSE, IN, CASE and COALESCE at their choice. The code is what lends the values of rows, the test for subqueries,
//! and the operations themselves.
//!
//! What the operators, predicates and functions of SQL give on values: arithmetic, three-valued logic, comparison,
//! texts, dates, CAST, and numbers at a given kind. Each operation is a definition on values, and its code gives
//! exactly that value or fault. A value of a kind that an operation doesn't take gives NULL: binding refuses it before.
//! The aggregates over the values of a group: COUNT, SUM, AVG, MIN and MAX, of all values or of distinct ones.
#![tactic(auto)]

mod aggregate;
mod around;
mod cast;
mod distinct;
mod extremes;
mod kinds;
pub mod laws;
mod logic;
mod moments;
mod numbers;
mod operators;
mod place;
mod plain;
mod row_ref;
mod texts;
mod totals;

pub use aggregate::{aggregate_value, count_value};
pub use around::Around;
pub use kinds::{given_at, read_value, readable};
pub use logic::{disjunction, is_null, is_true};
pub use numbers::{is_below_zero, plus, quotient, sum};
pub use operators::{
    between_value, binary_value, equal_test, greatest_test, least_test, negated_if, ternary_value,
    unary_value,
};
pub use place::Place;
pub use plain::is_plain;
pub use row_ref::RowRef;
