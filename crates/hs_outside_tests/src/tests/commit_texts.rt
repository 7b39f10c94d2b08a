// What the texts of commits say beside the lines of their changes, and how they are split.
use hs_log::{begin_commit, end_commit, split_commit};
use std::alloc::{AllocError, Global};
use std::test::Fail;

// One case a line, with `|` for the end of a line of a text: the session before, `-` for none, a text, and what it is split
// into, which is made again: a session and the lines of its changes, or `-` for none.
const SPLIT: &str = "\
-~/*C1*/|X|COMMIT|~1~X|
-~/*C4294967295*/|X|Y|COMMIT|~4294967295~X|Y|
1~X|COMMIT|~1~X|
1~/*C2*/|X|COMMIT|~2~X|
4294967295~/*C1*/|X|COMMIT|~1~X|
1~COMMIT|~1~
1~|COMMIT|~1~|
1~X|COMMIT|COMMIT|~1~X|COMMIT|
1~/*D2*/|COMMIT|~1~/*D2*/|
1~X|/*C2*/|COMMIT|~1~X|/*C2*/|
-~~-
1~~-
1~|~-
1~X|~-
1~X|COMMIT~-
1~X|commit|~-
1~X|COMMIT||~-
1~XCOMMIT|~-
1~XY|ZCOMMIT|~-
-~X|COMMIT|~-
-~COMMIT|~-
1~/*C1*/|X|COMMIT|~-
1~/*C2*/X|COMMIT|~-
1~/*C2*/|/*C3*/|X|COMMIT|~-
1~/*C2*/ |X|COMMIT|~-
1~/*C 2*/|X|COMMIT|~-
1~/*C2|X|COMMIT|~-
1~/*C|X|COMMIT|~-
1~/*COMMIT|~-
-~/*C*/|X|COMMIT|~-
-~/*C0*/|X|COMMIT|~-
-~/*C01*/|X|COMMIT|~-
-~/*C+1*/|X|COMMIT|~-
-~/*C-1*/|X|COMMIT|~-
-~/*C4294967296*/|X|COMMIT|~-
-~/*C18446744073709551617*/|X|COMMIT|~-
0~X|COMMIT|~-
";

// The bytes of a text.
fn bytes_of(alloc: Global, text: &str) -> Result<Vec<u8>, AllocError> {
    let mut bytes = Vec::new(alloc);
    for byte in text.bytes() {
        bytes.push(if byte == b'|' { b'\n' } else { byte })?;
    }
    Ok(bytes)
}

// The text of a commit of a session with these lines.
fn made(
    alloc: Global,
    before: Option<u32>,
    session: u32,
    lines: &[u8],
) -> Result<Vec<u8>, AllocError> {
    let mut text = Vec::new(alloc);
    begin_commit(&mut text, before, session)?;
    text.extend_from_slice(lines)?;
    end_commit(&mut text)?;
    Ok(text)
}

// Whether a text is split into these parts, and is made of them.
fn is_case(alloc: Global, case: &str) -> Result<bool, Fail> {
    let mut parts = case.split('~');
    let before = parts.next().ok_or("no session before")?.parse().ok();
    let text = bytes_of(alloc, parts.next().ok_or("no text")?)?;
    let session = parts.next().ok_or("no session")?.parse().ok();
    let lines = bytes_of(alloc, parts.next().unwrap_or(""))?;
    let Some((found, rest)) = split_commit(before, &text) else {
        return Ok(session.is_none());
    };
    let again = made(alloc, before, found, rest)?;
    Ok(Some(found) == session && rest == lines.as_slice() && again == text)
}

#[test]
fn texts_are_split(rt: HostRuntime) -> Result<(), Fail> {
    let mut count = 0u32;
    for case in SPLIT.lines() {
        assert!(rt; is_case(rt.alloc(), case)?, "at {case}");
        count = count.saturating_add(1);
    }
    assert_eq!(rt; count, 37);
    Ok(())
}
