//! The rules of types, one layer of an expression at a time: from parts whose names are bound, with their kinds, to the
//! bound tree and the kind of the whole, or the fault of types that it has by itself. Names and the queries inside are
//! bound elsewhere.
#![tactic(auto)]

mod assigning;
mod comparing;
mod faults;
mod functions;
mod laws;
mod lists;
mod literals;
mod operators;
mod queries;
mod typed;

pub use assigning::{bind_assigned, bind_condition};
pub use faults::Faults;
pub use functions::{bind_aggregate, bind_call, bind_substring, bind_trim, count_rows};
pub use laws::{literal_texts_alone_are_read, the_least_fault_is_answered};
pub use lists::{TypedArm, bind_case, bind_in_list};
pub use literals::{bind_literal, sql_type};
pub use operators::{bind_between, bind_binary, bind_like, bind_unary};
pub use queries::{bind_exists, bind_in_query, bind_subquery};
pub use typed::{RuleFault, Typed};
