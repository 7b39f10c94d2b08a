//! Parts that canonical lines have in common: first lines, names that end a text, and what stands behind a name or other
//! words. What is stated of them here serves any things that are written so.
#![tactic(auto)]

mod first_lines;
mod whole_names;

pub use first_lines::first_line;
pub use whole_names::read_whole_name;
