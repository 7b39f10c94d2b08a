//! What a foreign key does to a child row where a row of its parent was changed: whether it acts, the row that it makes,
//! or the fault of a value. And the foreign keys by the tables that they reference.
#![tactic(auto)]

mod columns;
mod effects;
mod keys;
mod new_keys;
mod references;

pub use columns::with_columns;
pub use effects::effect;
pub use keys::{acts_at, has_lost};
pub use new_keys::{assigned, new_key};
pub use references::References;
