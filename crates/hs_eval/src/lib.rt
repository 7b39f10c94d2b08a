//! The values of expressions and the answers of queries, exactly as `hs_answer` defines them. Of the tables that a query
//! names what it needs is copied, each table once, and all is evaluated over the copies: one cycle of functions walks the
//! trees, and what walks none stands beside it.
#![tactic(auto)]

mod bodies;
mod columns;
mod expressions;
mod from;
mod lists;
mod named;
mod outcomes;
mod over_tables;
mod parts;
mod queries;
mod select;

pub use expressions::value;
pub use over_tables::{eval_expr, eval_query};
pub use queries::query_rows;
