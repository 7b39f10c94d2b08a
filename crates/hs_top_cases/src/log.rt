// Logs that are written group by group.
use std::alloc::{AllocError, Global};

// The log with no group behind it, but for its last gate.
const HEAD: &[u8] = b"\x01\x01\0\0\0\0\0\0\0\x01";

/// A log with one more group, which has this text.
pub fn with_group(alloc: Global, log: &[u8], text: &[u8]) -> Result<Vec<u8>, AllocError> {
    let groups = match log.split_last() {
        Some((_, groups)) => groups,
        None => HEAD,
    };
    let mut longer = groups.to_vec(alloc)?;
    longer.push(1)?;
    longer.extend_from_slice(&(text.len() as u64).to_be_bytes())?;
    longer.extend_from_slice(text)?;
    longer.push(0)?;
    Ok(longer)
}
