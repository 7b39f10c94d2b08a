// The texts of commits: what a log writes before and behind the lines of their changes, and how a text is split again.
ghost use Rattle.std.specs.Prelude.{◌≡◌, ◌≢◌, ◌≤◌, ◌++◌, ℕ, List, Some, false, length, OnOk, MatchOption};
ghost use Rattle.std.specs.Char.{is_ascii_digit};
ghost use Rattle.std.specs.List.{prefix_len};
ghost use Rattle.std.specs.Option.{option_map};
ghost use Rattle.hs_log.specs.CommitText.{IsSession, AreLines, mark, ending, is_of, opening, are_lines, begin_marked, split_of};

use itoa::Buffer;
use std::alloc::AllocError;
use std::str;

/// Begins the text of a commit of a session behind bytes that are there: with its mark, which is the line `/*Cs*/` for session
/// s, unless the text before is one of the same session. `before` is the session of that text, and none stands before the
/// first. The lines of the commit's changes come next, and then `end_commit`.
///
/// An `Err` is want of memory, and then a part of the mark may be there.
pub fn begin_commit(text: &mut Vec<u8>, before: Option<u32>, session: u32) -> Result<(), AllocError>
    ensures { OnOk result (text.new.items ≡ text.old.items ++ opening before session) }
{
    if is_of(before, session) {
        return Ok(());
    }
    let mut buffer = Buffer::new();
    text.extend_from_slice(b"/*C")?;
    text.extend_from_slice(buffer.format(session).as_bytes())?;
    text.extend_from_slice(b"*/\n")
}

/// Ends the text of a commit with the line `COMMIT`. An `Err` is want of memory, and then nothing is added.
pub fn end_commit(text: &mut Vec<u8>) -> Result<(), AllocError>
    ensures { OnOk result (text.new.items ≡ text.old.items ++ ending) }
{
    text.extend_from_slice(b"COMMIT\n")
}

/// The session of a text and the lines of its changes, which are lent from it. `before` is the session of the text before it,
/// and none stands before the first.
///
/// It is none exactly where the text isn't one of a commit there (`commit_texts_are_split`, `split_texts_are_made`): where
/// it doesn't begin with the mark of a session from 1 to 2^32 - 1 without a leading zero although it is the first, or begins
/// with that of the session before, or where no whole lines and the line `COMMIT` stand behind that, or where a second mark
/// does.
pub fn split_commit(before: Option<u32>, text: &[u8]) -> Option<(u32, &[u8])>
    ensures { option_map (λ p. (p.0, p.1.now)) result ≡ split_of before text.now }
{
    if !text.starts_with(b"/*C") {
        return split_unmarked(before, text);
    }
    let (session, rest) = split_mark(text)?;
    if is_of(before, session) {
        return None;
    }
    let lines = split_lines(rest)?;
    Some((session, lines))
}

// The parts of a text without a mark, which is one of the session before.
fn split_unmarked(before: Option<u32>, text: &[u8]) -> Option<(u32, &[u8])>
    requires { begin_marked text.now ≡ false }
    ensures { option_map (λ p. (p.0, p.1.now)) result ≡ split_of before text.now }
{
    let session = before?;
    if session == 0 {
        return None;
    }
    let lines = split_lines(text)?;
    Some((session, lines))
}

// The text before is one of this session.
fn is_of(before: Option<u32>, session: u32) -> bool
    ensures { result ≡ is_of before session }
{
    match before {
        Some(before) => before == session,
        None => false,
    }
}

// The session whose mark stands at the front, and what stands behind it.
fn split_mark(text: &[u8]) -> Option<(u32, &[u8])>
    ensures { MatchOption result ((session : ℕ) (rest : List ℕ) → IsSession session → text.now ≢ mark session ++ rest) (λ p. IsSession p.0 × (text.now ≡ mark p.0 ++ p.1.now)) }
{
    let session = session_in(text)?;
    if session == 0 {
        return None;
    }
    let mut buffer = Buffer::new();
    let rest = text.strip_prefix(b"/*C")?;
    let rest = rest.strip_prefix(buffer.format(session).as_bytes())?;
    let rest = rest.strip_prefix(b"*/\n")?;
    Some((session, rest))
}

// The number that the digits behind the first 3 bytes write. A mark at the front is of no other session.
fn session_in(text: &[u8]) -> Option<u32>
    ensures { (session : ℕ) (rest : List ℕ) → IsSession session → text.now ≡ mark session ++ rest → result ≡ Some session }
{
    let behind = text.strip_prefix(b"/*C")?;
    let count = digits_len(behind);
    let Ok(digits) = str::from_utf8(&behind[..count]) else {
        return None;
    };
    match digits.parse::<u32>() {
        Ok(session) => Some(session),
        Err(_) => None,
    }
}

// How many digits stand at the front.
fn digits_len(bytes: &[u8]) -> usize
    ensures count { result ≡ prefix_len is_ascii_digit bytes.now }
    ensures within { result ≤ length bytes.now }
{
    bytes.iter().take_while(|b| b.is_ascii_digit()).count()
}

// The lines of changes that stand before the line `COMMIT`.
fn split_lines(text: &[u8]) -> Option<&[u8]>
    ensures { MatchOption result ((lines : List ℕ) → AreLines lines → text.now ≢ lines ++ ending) (λ lines. AreLines lines.now × (text.now ≡ lines.now ++ ending)) }
{
    let lines = text.strip_suffix(b"COMMIT\n")?;
    if are_lines(lines) { Some(lines) } else { None }
}

fn are_lines(lines: &[u8]) -> bool
    ensures { result ≡ are_lines lines.now }
{
    (lines.is_empty() || lines.ends_with(b"\n")) && !lines.starts_with(b"/*C")
}
