//! What writing statements change over the rows of tables, subqueries and the actions of foreign keys included: the
//! definitions below put together, and the laws that say on which tables this and the first violated constraint depend.
#![tactic(auto)]

pub mod laws;
