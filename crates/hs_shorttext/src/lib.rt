//! The canonical text of definitions of one short line: indexes that are made, tables and indexes that are dropped, and
//! settings of a database. Each is written and read back.
#![tactic(auto)]

mod index;
mod indexes;
mod plain;
mod printing;
mod settings;
mod tables;

pub use index::NewIndex;
pub use indexes::read_index;
pub use plain::read_plain;
pub use printing::{
    print_control, print_dropped_index, print_dropped_table, print_index, print_level,
};
pub use tables::columns_of;
