//! What names mean in queries: the columns that a FROM offers, the FROMs around it from the inside outward, the
//! names of output columns, and the keys of ORDER BY.
#![tactic(auto)]

mod column;
mod from_table;
mod index;
mod laws;
mod outputs;
mod scope;
mod scopes;
mod sought;

pub use column::OutputColumn;
pub use from_table::{FromTable, named_as};
pub use laws::{
    the_column_that_is_found_is_the_only_one, the_inner_query_comes_before_the_outer_ones,
};
pub use outputs::{KeyMeaning, Outputs, output_name};
pub use scope::Scope;
pub use scopes::Scopes;
pub use sought::{Found, Sought};
