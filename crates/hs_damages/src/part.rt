// The parts of a database that payloads belong to.

/// What payloads are read as.
#[derive(Clone, Copy, Debug, PartialEq, Eq)]
pub enum Part {
    /// The checkpoint, which is in the current slot.
    Checkpoint,
    /// The images of pages, which are in the backup.
    Images,
    /// The commits, which are in the log.
    Commits,
}
