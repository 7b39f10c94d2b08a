// The calls of a host that make a moment.
use hs_host::FileKind;
use hs_values::Bytes;

/// A call that made a moment.
#[derive(Drop)]
pub enum Call {
    /// These bytes were put into a file from a place on.
    Write {
        file: FileKind,
        at: u64,
        bytes: Bytes,
    },
    /// So many bytes were to be put into a file from a place on, which failed.
    FailedWrite {
        file: FileKind,
        at: u64,
        count: usize,
    },
    /// A file was cut to a length.
    Cut {
        file: FileKind,
        len: u64,
    },
    /// A file was to be cut to a length, which failed.
    FailedCut {
        file: FileKind,
        len: u64,
    },
    /// A file was synced.
    Sync {
        file: FileKind,
    },
    /// A file was looked at, or a sync of it failed.
    Look,
    /// These bytes were taken as output.
    Output {
        bytes: Bytes,
    },
    /// These bytes of the input were taken.
    Input {
        bytes: Bytes,
    },
}
