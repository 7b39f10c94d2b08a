// What an attempt came to.

/// What an attempt came to, beside what it told.
#[derive(Clone, Copy, Debug, PartialEq, Eq)]
pub struct Attempted {
    /// Whether the entry is answered; else it waits.
    pub is_final: bool,
    /// Whether a transaction ended, so that the waiters are to be attempted again.
    pub has_ended: bool,
}
