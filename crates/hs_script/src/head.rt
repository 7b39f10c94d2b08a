// What the first group of a slot says.
use hs_base::CommitNo;
use hs_claims::ControlKind;

/// The most changes in the life of a database.
pub const MOST_CHANGES: u64 = 1 << 48;

/// The most pages that a slot may name.
pub const MOST_PAGES: u64 = 1 << 50;

/// What the first group of a slot says of a database.
#[derive(Clone, Copy, Debug, PartialEq, Eq)]
pub struct Head {
    /// How many commits were made.
    pub commits: CommitNo,
    /// How many changes were made.
    pub changes: u64,
    /// How many pages count.
    pub pages: u64,
    pub control: ControlKind,
    /// Whether new sessions begin at SERIALIZABLE, and else at READ COMMITTED.
    pub serializable: bool,
}
