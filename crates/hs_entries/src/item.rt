// One item of the input.
use hs_values::{Chars, Name};

/// How many bytes an entry has at most, its `;` included.
pub const MOST_BYTES: usize = 65_536;

/// How many bytes the name of a session has at most.
pub const MOST_NAME_BYTES: usize = 32;

/// An item of the input. Items are numbered from 1 in the order of the input, bad ones included.
#[derive(Debug, Drop)]
pub enum Item {
    /// An entry of a session.
    Entry {
        /// Its number among the items, from 1.
        number: u64,
        /// The session's name, which stands directly before the first colon.
        session: Name,
        /// The statement: what stands behind the colon, up to and with the `;`.
        text: Chars,
        /// The place of `text` in the entry, in bytes from the first byte of the session's name.
        at: u32,
    },
    /// An entry without a session's name and directly a colon, or one that isn't UTF-8, or one that the
    /// input ends before its `;`.
    Bad {
        /// Its number among the items, from 1.
        number: u64,
    },
    /// An entry of more than `MOST_BYTES` bytes, whatever they are. They aren't kept.
    TooLong {
        /// Its number among the items, from 1.
        number: u64,
    },
    /// The end of the input.
    End,
}
