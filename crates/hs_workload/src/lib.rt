//! A generated input for measurements, and the line that sums up a run over it.
#![tactic(auto)]

mod generated;
mod summary;

pub use generated::text;
pub use summary::Summary;
