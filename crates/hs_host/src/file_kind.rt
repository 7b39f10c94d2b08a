// The files of a database.

/// One of the five files of a database. Each stands beside the others under the database's name.
#[derive(Clone, Copy, Debug, PartialEq, Eq)]
pub enum FileKind {
    /// `.script`, one of the two slots of the definitions and rows of a checkpoint.
    Script0,
    /// `.script.new`, the other slot.
    Script1,
    /// `.log`, the commits since the checkpoint.
    Log,
    /// `.data`, the pages of cached rows.
    Data,
    /// `.backup`, pages of `.data` as they were at the checkpoint.
    Backup,
}
