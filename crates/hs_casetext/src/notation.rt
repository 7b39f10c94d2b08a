// Bytes as a case writes them.
use crate::fault::CaseFault;
use std::alloc::Global;

/// A number of decimal digits.
pub fn number_in(text: &str) -> Result<u32, CaseFault> {
    Ok(text.parse::<u32>()?)
}

fn digit(byte: u8) -> Option<u8> {
    match byte {
        b'0'..=b'9' => Some(byte - b'0'),
        b'a'..=b'f' => Some(byte - b'a' + 10),
        _ => None,
    }
}

// What stands behind a `\`: a byte's letter or number, and then bytes that stand for themselves.
fn push_escaped(to: &mut Vec<u8>, text: &str) -> Result<(), CaseFault> {
    let behind = match text.as_bytes() {
        [b'n', behind @ ..] => {
            to.push(b'\n')?;
            behind
        }
        [b'x', high, low, behind @ ..] => {
            let high = digit(*high).ok_or(CaseFault::Unreadable)?;
            let low = digit(*low).ok_or(CaseFault::Unreadable)?;
            to.push(high << 4 | low)?;
            behind
        }
        _ => return Err(CaseFault::Unreadable),
    };
    to.extend_from_slice(behind)?;
    Ok(())
}

// A text with no part that is repeated.
fn push_plain(to: &mut Vec<u8>, text: &str) -> Result<(), CaseFault> {
    let mut is_first = true;
    for part in text.split('\\') {
        if is_first {
            to.extend_from_slice(part.as_bytes())?;
        } else {
            push_escaped(to, part)?;
        }
        is_first = false;
    }
    Ok(())
}

// A text in which a number stands in the place of each `#`.
fn push_numbered(to: &mut Vec<u8>, text: &str, number: u32) -> Result<(), CaseFault> {
    let mut is_first = true;
    for part in text.split('#') {
        if !is_first {
            let digits = format!(in *to.allocator(); "{number}")?;
            to.extend_from_slice(digits.as_str().as_bytes())?;
        }
        push_plain(to, part)?;
        is_first = false;
    }
    Ok(())
}

// What stands behind a `{`: how often, a space, a text, `}` and a plain text.
fn push_repeated(to: &mut Vec<u8>, text: &str) -> Result<(), CaseFault> {
    let (count, text) = text.split_once(' ').ok_or(CaseFault::Unreadable)?;
    let (repeated, behind) = text.split_once('}').ok_or(CaseFault::Unreadable)?;
    let count = number_in(count)?;
    for before in 0..count {
        push_numbered(to, repeated, before + 1)?;
    }
    push_plain(to, behind)
}

/// The bytes that a text of a case stands for. `\n` is the end of a line and `\x0a` the byte with that number. `{9 ab#}` is
/// `ab1ab2` and so on up to `ab9`. Any other character stands for itself.
///
/// `Unreadable`: the text has a `\` with something else behind it, or a `{` without a number, a space and a `}`.
pub fn bytes_of(alloc: Global, text: &str) -> Result<Vec<u8>, CaseFault> {
    let mut bytes = Vec::new(alloc);
    let mut is_first = true;
    for part in text.split('{') {
        if is_first {
            push_plain(&mut bytes, part)?;
        } else {
            push_repeated(&mut bytes, part)?;
        }
        is_first = false;
    }
    Ok(bytes)
}

/// The text that a text of a case stands for, in which bytes may be written as `bytes_of` reads them.
///
/// `Unreadable`: `bytes_of` can't read it, or its bytes are no text.
pub fn text_of(alloc: Global, text: &str) -> Result<String, CaseFault> {
    let bytes = bytes_of(alloc, text)?;
    String::from_utf8(bytes).map_err(|_| CaseFault::Unreadable)
}
