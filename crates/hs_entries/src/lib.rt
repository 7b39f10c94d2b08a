//! The entries of the input, read from a source in whatever pieces it gives its bytes.
//!
//! The input is a text of entries such as `a: COMMIT;`. What its items are is a function of its bytes
//! alone (`specs/Items.antt`): white space and comments before an entry are skipped, and an entry runs to
//! the first `;` that stands outside a text, a quoted name and a comment. The reader finds them in a
//! buffer of 128 KiB, asks for input only where it needs a byte and has none left, for 64 KiB at least at
//! once, and uses no more bytes than its limit.
#![tactic(auto)]

mod entry;
mod input_fault;
mod item;
mod laws;
mod place;
mod reader;
mod window;

pub use input_fault::InputFault;
pub use item::{Item, MOST_BYTES};
pub use laws::{entries_run_to_their_semicolon, white_space_and_comments_are_skipped};
pub use reader::EntryReader;
