//! The rows of a database with the changes of a transaction made on them, one after another: they are taken back to any number
//! of them, or committed with the numbers that their rows get.
#![tactic(auto)]

mod draft_rows;
mod making;
mod numbering;
mod seated;
mod seated_rows;
mod step;

pub use draft_rows::DraftRows;
pub use numbering::numbered;
pub use seated::Seated;
pub use seated_rows::SeatedRows;
