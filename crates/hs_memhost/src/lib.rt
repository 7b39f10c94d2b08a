//! Hosts in memory, for tests and for programs that want no files. Both tell their bytes, and proofs
//! about programs over them speak of those.
#![tactic(auto)]

mod call;
mod call_list;
mod devices;
mod files;
mod images;
mod input;
mod memory;
mod mounting;
mod never;

pub use call_list::CallList;
pub use images::Images;
pub use memory::MemHost;
pub use never::NeverFails;
