// What five files stand for, read by the definition's own words.
use std::alloc::{AllocError, Global};

// The number that 8 bytes from a place on spell, and 0 where they aren't there.
fn number_at(bytes: &[u8], at: usize) -> u64 {
    let mut number: u64 = 0;
    for byte in bytes.iter().skip(at).take(8) {
        number = number.wrapping_mul(256).wrapping_add(*byte as u64);
    }
    number
}

fn byte_at(bytes: &[u8], at: usize) -> Option<u8> {
    bytes.get(at).copied()
}

fn is_open(bytes: &[u8]) -> bool {
    bytes.len() >= 11 && byte_at(bytes, 1) == Some(1)
}

fn is_born(bytes: &[u8]) -> bool {
    byte_at(bytes, 0) == Some(1)
}

// It has a header, and where its gate is 1 all of it.
fn is_headed(bytes: &[u8]) -> bool {
    bytes.len() >= 2 && (byte_at(bytes, 1) != Some(1) || bytes.len() >= 11)
}

// The payloads of a file's groups, one behind the other with a bar behind each, or none where a group is broken.
fn groups_of(alloc: Global, bytes: &[u8]) -> Result<Option<String>, AllocError> {
    let mut shown = String::new(alloc);
    let mut at: usize = 10;
    for _ in 0..100_u8 {
        match byte_at(bytes, at) {
            None => return Ok(None),
            Some(1) => {}
            Some(_) => return Ok(Some(shown)),
        }
        let size = number_at(bytes, at.saturating_add(1));
        if size > 1_000_000 {
            return Ok(None);
        }
        let end = at.saturating_add(9).saturating_add(size as usize);
        if end >= bytes.len() {
            return Ok(None);
        }
        for byte in bytes.iter().skip(at.saturating_add(9)).take(size as usize) {
            shown.push(char::from(*byte))?;
        }
        shown.push_str("|")?;
        at = end;
    }
    Ok(None)
}

// The groups of a file that counts, nothing where it doesn't, and none where a group is broken.
fn counted(alloc: Global, bytes: &[u8], epoch: u64) -> Result<Option<String>, AllocError> {
    if is_open(bytes) && number_at(bytes, 2) == epoch {
        return groups_of(alloc, bytes);
    }
    Ok(Some(String::new(alloc)))
}

// Whether it is open with a greater epoch.
fn is_newer(bytes: &[u8], epoch: u64) -> bool {
    is_open(bytes) && number_at(bytes, 2) > epoch
}

// Which slot is the current one: the open one of the greater epoch.
fn current(first: &[u8], second: &[u8]) -> Option<bool> {
    match (is_open(first), is_open(second)) {
        (false, false) => None,
        (true, false) => Some(false),
        (false, true) => Some(true),
        (true, true) => {
            if number_at(first, 2) == number_at(second, 2) {
                return None;
            }
            Some(number_at(second, 2) > number_at(first, 2))
        }
    }
}

/// What the files stand for, or their first damage.
pub fn reading(alloc: Global, files: &[Vec<u8>]) -> Result<String, AllocError> {
    let [first, second, log, data, backup] = files else {
        return format!(in alloc; "not five");
    };
    if log.is_empty()
        && !(first.is_empty() && second.is_empty() && data.is_empty() && backup.is_empty())
    {
        return format!(in alloc; "Log(0)");
    }
    if backup.is_empty() && !(first.is_empty() && second.is_empty() && data.is_empty()) {
        return format!(in alloc; "Backup(0)");
    }
    if !(is_born(log.as_slice()) && is_born(backup.as_slice())) {
        return format!(in alloc; "unborn");
    }
    read_born(alloc, first, second, log, backup)
}

// The same of files that are born.
fn read_born(
    alloc: Global,
    first: &[u8],
    second: &[u8],
    log: &[u8],
    backup: &[u8],
) -> Result<String, AllocError> {
    if !(is_headed(first) && is_headed(second) && is_headed(log) && is_headed(backup)) {
        return format!(in alloc; "NoScript");
    }
    let Some(is_second) = current(first, second) else {
        return format!(in alloc; "NoScript");
    };
    let slot = if is_second { second } else { first };
    let epoch = number_at(slot, 2);
    if is_newer(log, epoch) || is_newer(backup, epoch) {
        return format!(in alloc; "NoScript");
    }
    let Some(base) = groups_of(alloc, slot)? else {
        return format!(in alloc; "Script");
    };
    let Some(images) = counted(alloc, backup, epoch)? else {
        return format!(in alloc; "Backup");
    };
    let Some(logged) = counted(alloc, log, epoch)? else {
        return format!(in alloc; "Log");
    };
    let number = if is_second { 1 } else { 0 };
    format!(in alloc; "slot {number} epoch {epoch} base {base} logged {logged} images {images}")
}
