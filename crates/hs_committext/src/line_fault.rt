// Why a line can't be read.
/// Why a line can't be read.
#[derive(Clone, Copy, Debug, PartialEq, Eq)]
pub enum LineFault {
    /// It is no change's canonical text.
    Broken,
    /// Memory was refused. No rule says when.
    NoMemory,
}
