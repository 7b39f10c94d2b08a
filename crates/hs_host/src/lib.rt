//! The outside of the engine: where its input comes from, where its output goes, and the files of a database.
//!
//! A host is told of by ghost members, which stand for nothing in memory: the input that is left, the
//! output so far, what a read of each file gives, and how often each device has failed. A host that tells
//! its bytes (`tells`) is one over memory; of the others the contracts below know counts, lengths and the
//! name alone.
//!
//! What is said of the files holds of an honest host, one where a read gives the bytes of the calls that
//! answered `Ok`, applied in order, and a crash leaves no more than `specs/Disk.antt` allows: of a file that
//! was touched since its last sync any bytes in each range that was written, and from the least length on
//! that it had at that sync or was cut to since. Writes and cuts that failed count as written and cut there.
//!
//! Code above is generic in the host, and calls `len`, `read`, `write`, `cut`, `sync`, `tell` and `ask`: these
//! are the calls of the traits, with all that each leaves alone in one clause (`specs/Used.antt`).
#![tactic(auto)]

mod calls;
mod file_kind;
mod host;
mod host_fault;
mod mount_fault;
mod source;

pub use calls::{ask, cut, len, read, sync, tell, write};
pub use file_kind::FileKind;
pub use host::Host;
pub use host_fault::HostFault;
pub use mount_fault::MountFault;
pub use source::Source;
