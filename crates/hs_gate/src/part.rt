// One group of a gated file.
use hs_values::Bytes;

/// A group that was read.
#[derive(Debug, Drop)]
pub struct Part {
    /// The bytes that the group holds.
    pub payload: Bytes,
    /// The place of the next gate, in bytes from the file's first.
    pub next: u64,
}
