// What a reader is asked for, one answer at a time, and all of an input.
use crate::answers::next;
use hs_casetext::push_line;
use hs_entries::EntryReader;
use hs_memhost::MemHost;
use std::alloc::{AllocError, Global};

// Adds the next answer, and says whether it is the last one to ask for. Where the reader wasn't ready though nothing was asked
// of the source, or the other way round, it says so.
fn push_next(
    to: &mut String,
    reader: &mut EntryReader,
    source: &mut MemHost,
) -> Result<bool, AllocError> {
    let calls = source.calls();
    let is_ready = reader.is_ready();
    let text = next(*to.allocator(), reader, source)?;
    if is_ready != (source.calls() == calls) {
        push_line(to, "not ready")?;
    }
    push_line(to, text.as_str())?;
    Ok(text.as_str().split_once(':').is_none())
}

/// The answers up to the end or the first fault, which is then answered again.
pub fn answers(alloc: Global, limit: u64, source: &mut MemHost) -> Result<String, AllocError> {
    let mut reader = EntryReader::new(alloc, limit);
    let mut shown = String::new(alloc);
    for _ in 0..100 {
        if push_next(&mut shown, &mut reader, source)? {
            break;
        }
    }
    let again = next(alloc, &mut reader, source)?;
    let last = format!(in alloc; "  {again}\n")?;
    if !shown.as_str().ends_with(last.as_str()) {
        push_line(&mut shown, "and then")?;
        push_line(&mut shown, again.as_str())?;
    }
    Ok(shown)
}

// Adds whether the reader is ready, its next answer, and how many calls the source had by then.
fn push_asked(
    to: &mut String,
    reader: &mut EntryReader,
    source: &mut MemHost,
) -> Result<(), AllocError> {
    let alloc = *to.allocator();
    let is_ready = reader.is_ready();
    let text = next(alloc, reader, source)?;
    let calls = source.calls();
    push_line(to, format!(in alloc; "{is_ready} {text} {calls}")?.as_str())
}

/// The same of so many answers.
pub fn asked(
    alloc: Global,
    limit: u64,
    source: &mut MemHost,
    times: u32,
) -> Result<String, AllocError> {
    let mut reader = EntryReader::new(alloc, limit);
    let mut shown = String::new(alloc);
    for _ in 0..times {
        push_asked(&mut shown, &mut reader, source)?;
    }
    Ok(shown)
}
