// Faults of mounting.

/// Why the files of a database were not opened.
#[derive(Clone, Copy, Debug, PartialEq, Eq)]
pub enum MountFault {
    /// The files are those of another program, as where `.properties` stands beside them. None was made or changed.
    Foreign,
    /// The device failed, and its count of faults rose.
    Fault,
    /// Memory was refused. No rule says when, and no count rises.
    NoMemory,
}
