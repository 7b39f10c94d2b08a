// Answers as lines behind two spaces.
use std::alloc::AllocError;

// ASCII as it stands, and any other byte and `\` as `\x` with two digits.
fn push_shown(to: &mut String, byte: u8) -> Result<(), AllocError> {
    if byte != b'\\' && byte >= b' ' && byte <= b'~' {
        to.push(char::from(byte))
    } else {
        write!(to, "\\x{byte:02x}")
    }
}

/// Adds one line with this text. Each character stands as it is, but those below the space, `\` and the last one of ASCII,
/// which stand as `\x` with two digits.
pub fn push_line(to: &mut String, text: &str) -> Result<(), AllocError> {
    to.push_str("  ")?;
    for c in text.chars() {
        if c < ' ' || c == '\\' || c == '\x7f' {
            let number = u32::from(c);
            write!(to, "\\x{number:02x}")?;
        } else {
            to.push(c)?;
        }
    }
    to.push('\n')
}

/// Adds bytes as the lines that they are, and those that are no signs of ASCII as `\x` with two digits. A last line that isn't
/// ended has a `\` behind it.
pub fn push_lines(to: &mut String, bytes: &[u8]) -> Result<(), AllocError> {
    let mut begins = true;
    for byte in bytes {
        if begins {
            to.push_str("  ")?;
        }
        begins = *byte == b'\n';
        if begins {
            to.push('\n')?;
        } else {
            push_shown(to, *byte)?;
        }
    }
    if begins { Ok(()) } else { to.push_str("\\\n") }
}
