// What is kept of the files of an open database.
use hs_gate::Gated;
use hs_host::FileKind;

/// What is kept of the files of an open database: its log and its backup as they were read, and the slot that is the
/// current one with its epoch.
#[derive(Clone, Copy, Debug, PartialEq, Eq)]
pub struct Files {
    /// The log.
    pub log: Gated,
    /// The backup.
    pub backup: Gated,
    /// The file of the current slot.
    pub slot: FileKind,
    /// The epoch of the current slot.
    pub epoch: u64,
}
