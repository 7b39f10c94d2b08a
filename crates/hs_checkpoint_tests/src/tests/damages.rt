// Five files, and what they are read as.
ghost use Rattle.std.specs.Prelude.{◌≡◌, true};

use crate::tests::torn::{Fill, TornHost};
use crate::tests::words::Words;
use hs_damages::{Damage, Sight, Stop, examine};
use hs_gate::Gated;
use hs_host::FileKind;
use std::alloc::{AllocError, Global};
use std::test::Fail;

// The slots, the log, the page file and the backup, and what they are read as. A file is empty, or it is one or two bytes, or its
// birth byte, its gate, its epoch and the payloads of its groups, with `!` for a broken one.
const ROWS: [([&str; 5], &str); 25] = [
    (["", "", "", "", ""], "unborn"),
    (["0 1 1 a", "", "", "", ""], "Log(0)"),
    (["", "", "", "", "1 1 1"], "Log(0)"),
    (["", "", "", "7", ""], "Log(0)"),
    (["", "", "1 1 1", "", ""], "unborn"),
    (["0 0", "", "0 1 1", "", ""], "Backup(0)"),
    (["", "", "1 1 1", "7", ""], "Backup(0)"),
    (["0 1 1 a", "0 0", "1 1 1 x", "", "0 1 1"], "unborn"),
    (["0", "", "0 1 1 x", "", "1 1 1"], "unborn"),
    (
        ["0 1 1 a", "0 0", "1 1 1 x y", "", "1 1 1"],
        "slot 0 epoch 1: a; log 2: x y; backup 0:",
    ),
    (["0 1 1 a", "0", "1 1 1", "", "1 1 1"], "NoScript"),
    (["0 1 1 a", "0 1", "1 1 1", "", "1 1 1"], "NoScript"),
    (["0 0", "0 7 1 a", "1 1 1", "", "1 1 1"], "NoScript"),
    (["0 1 3 a", "0 1 3 c", "1 1 3", "", "1 1 3"], "NoScript"),
    (["0 1 3 a", "0 1 2 c", "1 1 4", "", "1 1 3"], "NoScript"),
    (["0 1 3 a", "0 1 2 c", "1 1 3", "", "1 1 4"], "NoScript"),
    (
        ["0 1 2 a", "0 1 3 c", "1 1 2 x", "", "1 1 2 p"],
        "slot 1 epoch 3: c; log 0:; backup 0:",
    ),
    (
        ["0 1 4 a c", "0 1 3 !", "1 0 9 x", "", "1 1 4 p"],
        "slot 0 epoch 4: a c; log 0:; backup 1: p",
    ),
    (["0 1 1", "0 0", "1 1 1", "", "1 1 1"], "Script(1)"),
    (["0 1 1 a b", "0 0", "1 1 1", "", "1 1 1"], "Script(2)"),
    (["0 1 1 a !", "0 0", "1 1 1 !", "", "1 1 1 !"], "Script(2)"),
    (["0 1 1 a", "0 0", "1 1 1 b", "", "1 1 1 p !"], "Backup(2)"),
    (["0 1 1 a", "0 0", "1 1 1 x y b", "", "1 1 1"], "Log(3)"),
    (["0 1 1 a", "0 0", "1 1 1 !", "", "1 1 1 p"], "Log(1)"),
    (["0 1 1 b !", "0 0", "1 1 1 b", "", "1 1 1 b"], "Script(1)"),
];

// The bytes of a file.
fn bytes_of(alloc: Global, text: &str) -> Result<Vec<u8>, Fail> {
    let mut bytes = Vec::new(alloc);
    for (place, word) in text.split_ascii_whitespace().enumerate() {
        if place == 2 {
            bytes.extend_from_slice(&[0; 7])?;
        }
        if place < 3 {
            bytes.push(word.parse::<u8>()?)?;
        } else {
            push_group(&mut bytes, word)?;
        }
    }
    if bytes.len() > 2 {
        bytes.push(0)?;
    }
    Ok(bytes)
}

// A group of one word, or a broken one.
fn push_group(bytes: &mut Vec<u8>, word: &str) -> Result<(), AllocError> {
    let length = if word == "!" { 99 } else { word.len() as u64 };
    bytes.push(1)?;
    bytes.extend_from_slice(&length.to_be_bytes())?;
    bytes.extend_from_slice(word.as_bytes())
}

// The words of a part, each with a space before it.
fn push_words(shown: &mut String, words: &[Vec<u8>]) -> Result<(), AllocError> {
    for word in words {
        shown.push(' ')?;
        for byte in word {
            shown.push(char::from(*byte))?;
        }
    }
    Ok(())
}

fn groups_in(gated: Option<Gated>) -> u64 {
    match gated {
        Some(gated) => gated.groups,
        None => 0,
    }
}

// What was read: the slot and its words, and of the log and the backup how many groups count and which words were taken.
fn show_sight(alloc: Global, sight: &Sight, words: &Words) -> Result<String, AllocError> {
    let slot = match sight.current.slot {
        FileKind::Script1 => 1,
        _ => 0,
    };
    let epoch = sight.current.epoch;
    let commits = groups_in(sight.log);
    let images = groups_in(sight.backup);
    let mut shown = format!(in alloc; "slot {slot} epoch {epoch}:")?;
    push_words(&mut shown, words.base.as_slice())?;
    let log = format!(in alloc; "; log {commits}:")?;
    shown.push_str(log.as_str())?;
    push_words(&mut shown, words.logged.as_slice())?;
    let backup = format!(in alloc; "; backup {images}:")?;
    shown.push_str(backup.as_str())?;
    push_words(&mut shown, words.images.as_slice())?;
    Ok(shown)
}

fn show_damage(alloc: Global, damage: Damage) -> Result<String, AllocError> {
    format!(in alloc; "{damage:?}")
}

// What the files are read as.
fn read_all(alloc: Global, host: &mut TornHost) -> Result<String, AllocError>
    requires { host.old.is_open ≡ true }
{
    let mut words = Words::new(alloc);
    match examine(alloc, host, &mut words) {
        Ok(Some(sight)) => show_sight(alloc, &sight, &words),
        Ok(None) => format!(in alloc; "unborn"),
        Err(Stop::Damaged(damage)) => show_damage(alloc, damage),
        Err(_) => format!(in alloc; "not read"),
    }
}

fn row(alloc: Global, texts: [&str; 5]) -> Result<String, Fail> {
    let mut files = Vec::new(alloc);
    for text in texts {
        files.push(bytes_of(alloc, text)?)?;
    }
    let mut host = TornHost::new(alloc, files.as_slice(), 1000, Fill::New)?;
    Ok(read_all(alloc, &mut host)?)
}

#[test]
fn files_are_read(rt: HostRuntime) -> Result<(), Fail> {
    for (texts, expected) in ROWS {
        assert_eq!(rt; row(rt.alloc(), texts)?.as_str(), expected);
    }
    Ok(())
}
