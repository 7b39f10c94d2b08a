//! How the cases of the test programs are written, and what such a program prints of each.
#![tactic(auto)]

mod answers;
mod fault;
mod lines;
mod notation;

pub use answers::{Cases, answer_all};
pub use fault::CaseFault;
pub use lines::{push_line, push_lines};
pub use notation::{bytes_of, number_in, text_of};
