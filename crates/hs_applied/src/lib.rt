//! The changes of a statement on the rows of a draft: they are made, and may be taken back, and the first constraint
//! that they violate is told.
#![tactic(auto)]

mod applying;
mod judging;
mod setting;
mod undo;

pub use applying::apply;
pub use judging::violated;
pub use undo::Undo;
