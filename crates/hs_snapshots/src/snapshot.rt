// A snapshot.

/// A store behind so many commits of a run.
#[derive(Drop)]
pub struct Snapshot<S> {
    pub start: u64,
    pub store: S,
}
