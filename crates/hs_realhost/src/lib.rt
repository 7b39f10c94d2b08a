//! The real outside: standard input, standard output, and the files of a database. It tells nothing of
//! their bytes, since no contract can say what a device gives. What `Host` says of names, causes and
//! counts is proved of it; that the files obey it is trusted, and looked at by a test.
#![tactic(auto)]

mod database_files;
mod file_host;
mod reason;
mod streams;
#[cfg(test)]
mod tests;

pub use file_host::FileHost;
pub use reason::Reason;
