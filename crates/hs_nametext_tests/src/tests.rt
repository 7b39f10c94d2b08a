// Names, with their text worked out by hand.
use hs_nametext::{is_plain, print_name, read_name};
use hs_values::Chars;
use std::alloc::Global;
use std::process::Abort;
use std::test::Fail;

static NAMES: [(&str, &str); 14] = [
    ("T", "T"),
    ("A_1", "A_1"),
    ("Z9_", "Z9_"),
    ("LEVEL", "LEVEL"),
    ("KEY", "KEY"),
    ("SELECT", "\"SELECT\""),
    ("TRUE", "\"TRUE\""),
    ("t", "\"t\""),
    ("Ab", "\"Ab\""),
    ("_A", "\"_A\""),
    ("1A", "\"1A\""),
    ("A B", "\"A B\""),
    ("a\"b", "\"a\"\"b\""),
    ("é", "\"é\""),
];

static WRONG: [&str; 14] = [
    "",
    " T",
    "t",
    "1",
    "_A",
    "SELECT",
    "\"T\"",
    "\"LEVEL\"",
    "\"\"",
    "\"a",
    "\"a\"_",
    "\"a\tb\"",
    "T\"",
    "\"a\"B",
];

/// Whether the name is written so, and read back, with what is behind it.
fn agrees(alloc: Global, name: &str, text: &str) -> Result<bool, Fail> {
    let mut out = Chars::new(alloc);
    print_name(name, &mut out)?;
    if out.as_str() != text {
        return Ok(false);
    }
    out.push_text("(x")?;
    match read_name(alloc, out.as_str()) {
        Ok(Some((read, rest))) => Ok(read.as_str() == name && rest == "(x"),
        Ok(None) => Ok(false),
        Err(_) => Ok(false),
    }
}

/// Whether a text begins with no name.
fn is_refused(alloc: Global, text: &str) -> bool {
    match read_name(alloc, text) {
        Ok(None) => true,
        _ => false,
    }
}

#[test]
fn names_are_written_and_read_back(rt: HostRuntime) -> Result<(), Fail> {
    for (name, text) in &NAMES {
        assert!(rt; agrees(rt.alloc(), name, text)?, "{name}");
        assert!(rt; is_plain(name) == (text == name), "{name}");
    }
    Ok(())
}

#[test]
fn other_texts_begin_with_no_name(rt: HostRuntime) {
    for text in &WRONG {
        assert!(rt; is_refused(rt.alloc(), text), "{text}");
    }
}
