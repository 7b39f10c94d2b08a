// What is told of an entry.
use hs_base::CommitNo;
use hs_claims::Blockers;
use hs_values::Chars;

/// What is told of an entry, in a line of its own.
#[derive(Drop)]
pub enum Words {
    /// A row of its answer.
    Row(Chars),
    /// Its reply, and the commit that it made.
    Reply {
        /// What stands in front of the commit.
        text: Chars,
        /// The commit, if it made one.
        commit: Option<CommitNo>,
    },
    /// The commit of its session's own changes, which a definition makes first.
    First(CommitNo),
    /// The sessions for which it begins to wait.
    WaitsFor(Blockers),
}
