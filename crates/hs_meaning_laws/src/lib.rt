//! What the meaning of expressions and queries comes to, as laws: each on a function that does nothing.
#![tactic(auto)]

mod laws;

pub use laws::{
    a_column_outside_group_by_is_a_fault, aggregates_stand_in_items_and_having_alone,
    the_answered_fault_is_the_least,
};
