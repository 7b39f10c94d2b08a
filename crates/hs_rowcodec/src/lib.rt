//! Rows in bytes: the encoding of a row of given types, and a view that lends its fields.
#![tactic(auto)]

mod encoding;
pub mod laws;
mod length;
mod value;
mod view;

pub use encoding::{encode, encode_onto};
pub use length::{are_storable, encoded_len};
pub use view::RowView;
