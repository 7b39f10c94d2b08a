//! Claims of transactions on the catalogue, on tables, rows and keys: which go together, what statements want and keep
//! under each model of transactions, and a table of what the sessions hold.
#![tactic(auto)]

mod blockers;
mod claim;
mod claim_table;
mod claims;
mod footprint;
mod key_names;
pub mod laws;
mod model;
mod resource;

pub use blockers::Blockers;
pub use claim::{Claim, compatible};
pub use claim_table::ClaimTable;
pub use claims::{Claims, catalog_claims};
pub use footprint::Footprint;
pub use key_names::{KeyName, KeyNames};
pub use model::{ControlKind, Level, TxModel};
pub use resource::Resource;
