//! Binding of expressions and queries over a catalogue, exactly as the definitions of `hs_meaning` say: for each form its
//! parts are bound, and then what the whole comes to is concluded. One cycle of functions walks the trees; what walks none
//! stands beside it.
#![tactic(auto)]

mod bodies;
mod entering;
mod expressions;
mod from;
mod lists;
mod operands;
mod over;
mod queries;
mod resolver;
mod select;
mod statements;
mod subqueries;
mod values;

pub use resolver::Resolver;
pub use statements::{StatementQuery, bound_check, bound_condition, bound_query, bound_value};
