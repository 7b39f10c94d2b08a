// A commit.
use hs_base::SessionNo;
use hs_claims::Claims;
use hs_plan::Changes;

/// A commit: the session that made it, its changes, of which there is one at least, and the claims that its
/// transaction held.
#[derive(Drop)]
pub struct Commit {
    pub session: SessionNo,
    pub changes: Changes,
    pub claims: Claims,
}
