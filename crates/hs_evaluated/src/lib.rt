//! What a bound data statement comes to over the rows of a database with the changes of a transaction on them:
//! exactly what SQL's language says, with its own changes made behind the others, where they are kept.
#![tactic(auto)]

mod attempting;
mod evaluating;
mod finishing;
mod giving;
mod telling;

pub use evaluating::evaluate;
