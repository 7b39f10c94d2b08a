//! Whether changes put a row whose encoding has more bytes than a row may have.
#![tactic(auto)]

mod long_rows;

pub use long_rows::{MOST_ROW_BYTES, has_long_row};
