//! Rows of tables in memory while they are changed: as they are, as they were before, and which constraint they violate
//! first, told from the changes alone or from all rows.
#![tactic(auto)]

mod check;
mod draft;
mod draft_changes;
mod parent;
mod questions;
mod whole;

pub use check::Check;
pub use draft::Draft;
pub use draft_changes::DraftChanges;
pub use whole::whole_violated;
