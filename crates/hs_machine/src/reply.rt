// The final reply to an item.
ghost use Rattle.std.specs.Prelude.{◌≡◌};
ghost use Rattle.hs_machine.specs.Replies.{is_commit};

use crate::refusal::Refusal;
use hs_base::CommitNo;
use hs_values::RowList;

/// The final reply to an item.
#[derive(Debug, Drop)]
pub enum Reply {
    /// It was done.
    Ok {
        /// The rows of a query's answer, in order; none exactly where the statement is no query.
        rows: Option<RowList>,
        /// How many rows an answer has, or a statement itself put or deleted; none where its line has no such number.
        count: Option<u64>,
        /// The commit that it made; none where nothing was committed.
        committed: Option<CommitNo>,
    },
    /// It was refused, and no table is changed.
    Refused(Refusal),
}

impl Reply {
    /// Whether it is the reply of a commit.
    pub fn is_commit(&self) -> bool
        ensures { result ≡ is_commit self.now }
    {
        match self {
            Reply::Ok { committed, .. } => committed.is_some(),
            Reply::Refused(_) => false,
        }
    }
}
