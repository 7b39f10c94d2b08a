// Why a text can't be read.
/// Why a text can't be read.
#[derive(Clone, Copy, Debug, PartialEq, Eq)]
pub enum TextFault {
    /// It is no commit's canonical text.
    Broken,
    /// Memory was refused. No rule says when.
    NoMemory,
}
