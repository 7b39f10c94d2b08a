//! What the turns of a run ask of an engine, and what an engine asks of a store, as traits: each of the three stands on these, and
//! not on how the others are built.
#![tactic(auto)]

mod asked;
mod attempted;
mod engine;
mod outcome;
mod store;

pub use asked::Asked;
pub use attempted::Attempted;
pub use engine::Engine;
pub use outcome::Outcome;
pub use store::Store;
