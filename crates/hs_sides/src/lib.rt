//! What of a machine its attempts look at and change, as definitions, and the law that they depend on nothing else.
#![tactic(auto)]

mod laws;

pub use laws::attempts_look_at_no_other_entry;
