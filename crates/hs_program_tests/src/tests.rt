// Runs over a database that counts.
ghost use Rattle.std.specs.Prelude.{◌≡◌, IfOk};
ghost use Rattle.hs_host.specs.Files.{IsUnnamed};

use crate::tally::Tally;
use hs_host::{FileKind, Host};
use hs_memhost::{CallList, Images, MemHost};
use hs_program::{Damage, Status, run_over};
use hs_values::{Bytes, Chars, Name, Words};
use std::alloc::{AllocError, Global};
use std::test::Fail;

// Three entries, of which two are whole, and what a log is then that has their texts.
const INPUT: &[u8] = b"a: ONE; b: TWO; c";

const LOGGED: &[u8] =
    b"\x01\x01\0\0\0\0\0\0\0\x01\x01\0\0\0\0\0\0\0\x05 ONE;\x01\0\0\0\0\0\0\0\x05 TWO;\0";

// A log whose second text isn't whole.
const DAMAGED: &[u8] =
    b"\x01\x01\0\0\0\0\0\0\0\x01\x01\0\0\0\0\0\0\0\x05 ONE;\x01\0\0\0\0\0\0\0\x05 TW";

// A log's header, and the length of a text that is longer than each that an entry makes.
const LONG_BEGINS: &[u8] = b"\x01\x01\0\0\0\0\0\0\0\x01\x01\0\0\0\0\0\x01\0\x01";

const FIRST_TOLD: &[u8] = b"opened at 0\nclosed at 2\n";

const SECOND_TOLD: &[u8] = b"opened at 2\nclosed at 3\n";

const AGAIN_TOLD: &[u8] = b"opened at 2\nclosed at 4\n";

fn words(alloc: Global, texts: &[&str]) -> Result<Words, AllocError> {
    let mut words = Words::new(alloc);
    for text in texts {
        words.push(Chars::from_text(alloc, text)?)?;
    }
    Ok(words)
}

// A host with this input, whose log has these bytes and whose other files are empty.
fn host(alloc: Global, input: &[u8], log: &[u8], failing: &[u64]) -> Result<MemHost, AllocError>
    ensures { IfOk result (λ host. IsUnnamed (⟦<MemHost as Host>⟧.standing host)) }
{
    let input = Bytes::from_vec(input.to_vec(alloc)?);
    let mut files = Images::new(alloc);
    files.log = Bytes::from_vec(log.to_vec(alloc)?);
    let failing = CallList::from_vec(failing.to_vec(alloc)?);
    Ok(MemHost::new(alloc, input, files, false, failing))
}

#[test]
fn commits_are_made_again(rt: HostRuntime) -> Result<(), Fail> {
    let alloc = rt.alloc();
    let words = words(alloc, &["hsql", "demo"])?;
    let mut first = host(alloc, INPUT, b"", &[])?;
    assert!(rt; run_over::<MemHost, Tally>(alloc, &words, &mut first) == Status::Done);
    assert_eq!(rt; first.output(), FIRST_TOLD);
    assert_eq!(rt; first.image(FileKind::Log), LOGGED);
    let mut second = host(alloc, b"a: THREE;", LOGGED, &[])?;
    assert!(rt; run_over::<MemHost, Tally>(alloc, &words, &mut second) == Status::Done);
    assert_eq!(rt; second.output(), SECOND_TOLD);
    Ok(())
}

#[test]
fn other_words_and_a_damaged_log_are_told(rt: HostRuntime) -> Result<(), Fail> {
    let alloc = rt.alloc();
    let mut first = host(alloc, INPUT, DAMAGED, &[])?;
    let none = words(alloc, &["hsql"])?;
    assert!(rt; run_over::<MemHost, Tally>(alloc, &none, &mut first) == Status::Usage);
    let words = words(alloc, &["hsql", "demo"])?;
    assert!(rt;
        run_over::<MemHost, Tally>(alloc, &words, &mut first) == Status::Damaged(Damage::Log(2))
    );
    assert!(rt; first.output().is_empty());
    assert_eq!(rt; first.image(FileKind::Log), DAMAGED);
    Ok(())
}

#[test]
fn a_log_that_makes_what_is_invalid_is_told(rt: HostRuntime) -> Result<(), Fail> {
    let alloc = rt.alloc();
    let mut log = LONG_BEGINS.to_vec(alloc)?;
    for _ in 0..65_537 {
        log.push(b'x')?;
    }
    log.push(0)?;
    let mut first = host(alloc, INPUT, log.as_slice(), &[])?;
    let words = words(alloc, &["hsql", "demo"])?;
    let name = Name::from_text(alloc, "SHORT")?;
    assert!(rt;
        run_over::<MemHost, Tally>(alloc, &words, &mut first)
            == Status::Damaged(Damage::Invalid(name))
    );
    assert!(rt; first.output().is_empty());
    assert_eq!(rt; first.image(FileKind::Log), log.as_slice());
    Ok(())
}

// Each call fails in turn: a run that fails has written a front of the transcript.
#[test]
fn what_is_written_is_a_front(rt: HostRuntime) -> Result<(), Fail> {
    let alloc = rt.alloc();
    let words = words(alloc, &["hsql", "demo"])?;
    for call in 0..24_u64 {
        let mut failing = host(alloc, INPUT, LOGGED, &[call])?;
        run_over::<MemHost, Tally>(alloc, &words, &mut failing);
        assert!(rt; AGAIN_TOLD.starts_with(failing.output()));
    }
    Ok(())
}
