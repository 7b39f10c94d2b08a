//! What an expression comes to whose parts are bound: for each form the bound whole, known where its parts are known and
//! it breaks no rule, with the fault that it has by itself noted at its place.
#![tactic(auto)]

mod choices;
mod functions;
mod operators;
mod parts;
mod queries;
mod standing;

pub use choices::{call, case, in_list};
pub use functions::{aggregate, count_rows, substring, trim};
pub use operators::{between, binary, like, unary};
pub use parts::{arm, with_part};
pub use queries::{exists, in_query, subquery};
pub use standing::{assigned, condition};
