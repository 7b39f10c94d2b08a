// Answers of a reader as texts.
use hs_entries::{EntryReader, InputFault, Item};
use hs_host::Source;
use std::alloc::{AllocError, Global};

// A text of more than 1,000 bytes is shown as their number.
fn show_entry(
    alloc: Global,
    number: u64,
    session: &str,
    text: &str,
    at: u32,
) -> Result<String, AllocError> {
    if text.len() > 1000 {
        let length = text.len();
        return format!(in alloc; "{number}:{session}@{at}:#{length}");
    }
    format!(in alloc; "{number}:{session}@{at}:{text}")
}

fn show_fault(alloc: Global, fault: InputFault) -> Result<String, AllocError> {
    let text = match fault {
        InputFault::Fault => "fault",
        InputFault::TooLong => "beyond",
        InputFault::NoMemory => "no memory",
    };
    String::from_str(alloc, text)
}

// The text of an answer.
fn show(alloc: Global, answer: Result<Item, InputFault>) -> Result<String, AllocError> {
    match answer {
        Ok(
            Item::Entry {
                number,
                session,
                text,
                at,
            },
        ) => show_entry(alloc, number, session.as_str(), text.as_str(), at),
        Ok(Item::Bad { number }) => format!(in alloc; "{number}:bad"),
        Ok(Item::TooLong { number }) => format!(in alloc; "{number}:long"),
        Ok(Item::End) => String::from_str(alloc, "end"),
        Err(fault) => show_fault(alloc, fault),
    }
}

/// The text of the next answer.
pub fn next<S: Source>(
    alloc: Global,
    reader: &mut EntryReader,
    source: &mut S,
) -> Result<String, AllocError> {
    show(alloc, reader.next(source))
}
