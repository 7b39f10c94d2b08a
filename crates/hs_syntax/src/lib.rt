//! The grammar of the statements, as data, and the classes of tokens, which are all that it sees of them.
//!
//! `classes` gives the classes of a text's tokens (`specs/Classes.antt`). `recognised` answers the items of the statement
//! that they are: the classes, with the numbers of the steps that build the tree between them. They are those by which one
//! reads it in the literal grammar (`specs/Literal.antt`), and where there is none, the fault is that of the first token
//! with which no statement begins any more (`specs/Statement.antt`). The table is made by `grammar/make_table.py`, and
//! `hs_grammar` works through it.
#![tactic(auto)]

mod class;
mod laws;
mod reserved;
mod syntax;
mod table;
mod words;

pub use class::classes;
pub use laws::law_of_one_reading;
pub use reserved::is_reserved;
pub use syntax::recognised;
