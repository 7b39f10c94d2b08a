//! The canonical text of the definitions of tables, and of columns that are added to them. A rule is what a constraint asks of its
//! table: NOT NULL, PRIMARY KEY, UNIQUE, CHECK and FOREIGN KEY. Each has one spelling; the lines of a table's constraints stand
//! alone, or behind the line of their table or column. All are written and read back. How the condition of a CHECK is written
//! is left to who calls.
#![tactic(auto)]

mod added;
mod belonging;
mod conditions;
mod constraints;
mod definition;
mod front;
mod line_printing;
mod lines;
mod parts;
mod printing;
mod rule_printing;
mod rules;
mod storage;
mod tables;

pub use added::read_added_column;
pub use conditions::Conditions;
pub use constraints::read_constraint;
pub use definition::{AddedColumn, NewTable};
pub use line_printing::{print_constraint, print_constraint_lines};
pub use lines::read_constraint_lines;
pub use printing::{print_added_column, print_table};
pub use rule_printing::print_rule;
pub use rules::read_rule;
pub use tables::read_table;
