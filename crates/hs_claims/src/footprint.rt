// What a statement touches.
use crate::key_names::KeyNames;
use hs_base::{RowNames, Tables};

/// What a bound data statement touches: the tables that it reads and those that it writes, the committed rows that it
/// changes, the unique keys that it puts or removes, and the parent keys that its put rows name.
#[derive(Debug, Drop)]
pub struct Footprint {
    pub reads: Tables,
    pub writes: Tables,
    pub rows: RowNames,
    pub keys: KeyNames,
    pub parents: KeyNames,
}
