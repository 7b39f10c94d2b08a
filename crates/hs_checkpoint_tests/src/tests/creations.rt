// Each moment of a creation, with each way of filling what is uncertain, and what is there in the end.
ghost use Rattle.std.specs.Prelude.{◌≡◌, true};

use crate::tests::moments::{FILLS, gated, show};
use crate::tests::texts::Texts;
use crate::tests::torn::{Fill, TornHost};
use hs_creation::create;
use hs_gate::GateFault;
use hs_host::FileKind;
use std::alloc::{AllocError, Global};
use std::test::Fail;

// What files stand for on the way and in the end.
const CREATED: &str = "unborn;slot 0 epoch 1 base a|bb| logged  images ;";

// The first slot: epoch 1 and two groups.
const SLOT: [u8; 32] = [
    0, 1, 0, 0, 0, 0, 0, 0, 0, 1, 1, 0, 0, 0, 0, 0, 0, 0, 1, 97, 1, 0, 0, 0, 0, 0, 0, 0, 2, 98, 98,
    0,
];

// A log and a backup without groups.
const HEADER: [u8; 11] = [1, 1, 0, 0, 0, 0, 0, 0, 0, 1, 0];

// What a database may have before it is created.
#[derive(Clone, Copy, Debug)]
enum Start {
    Empty,
    // A creation that was cut off behind the birth of the backup, over older files.
    CutOff,
    // The log is born and the backup isn't.
    LogAlone,
}

const STARTS: [Start; 3] = [Start::Empty, Start::CutOff, Start::LogAlone];

// The five files.
fn files_of(alloc: Global, start: Start) -> Result<Vec<Vec<u8>>, AllocError> {
    let mut files = Vec::new(alloc);
    match start {
        Start::Empty => {
            for _ in 0..5_u8 {
                files.push(Vec::new(alloc))?;
            }
        }
        Start::CutOff => {
            files.push(gated(alloc, 0, 1, 7, Some("x"))?)?;
            files.push([0, 0].to_vec(alloc)?)?;
            files.push(gated(alloc, 0, 1, 1, None)?)?;
            files.push([5, 6, 7].to_vec(alloc)?)?;
            files.push(gated(alloc, 1, 1, 1, Some("y"))?)?;
        }
        Start::LogAlone => {
            files.push([9].to_vec(alloc)?)?;
            files.push(gated(alloc, 0, 1, 9, Some("z"))?)?;
            files.push(gated(alloc, 1, 1, 9, Some("x"))?)?;
            files.push(Vec::new(alloc))?;
            files.push(gated(alloc, 0, 1, 9, None)?)?;
        }
    }
    Ok(files)
}

// A creation of two groups, the second given byte by byte.
fn make(alloc: Global, host: &mut TornHost) -> Result<FileKind, GateFault>
    requires { host.old.is_open ≡ true }
{
    let mut groups = Texts::new(alloc, &["a", "bb"], 1)?;
    let files = create(alloc, host, &mut groups)?;
    Ok(files.slot)
}

// What files stand for after a crash at each call in turn.
fn creations(alloc: Global, start: Start, fill: Fill) -> Result<String, AllocError> {
    let files = files_of(alloc, start)?;
    let mut shown = String::new(alloc);
    let mut last = String::new(alloc);
    for crash in 0..200_u64 {
        let mut host = TornHost::new(alloc, files.as_slice(), crash, fill)?;
        let outcome = make(alloc, &mut host);
        show(&mut shown, &mut last, alloc, &host)?;
        if outcome.is_ok() {
            break;
        }
    }
    Ok(shown)
}

#[test]
fn creations_at_each_moment(rt: HostRuntime) -> Result<(), Fail> {
    for start in STARTS {
        for fill in FILLS {
            assert_eq!(rt; creations(rt.alloc(), start, fill)?.as_str(), CREATED);
        }
    }
    Ok(())
}

#[test]
fn created_files(rt: HostRuntime) -> Result<(), Fail> {
    for start in STARTS {
        let files = files_of(rt.alloc(), start)?;
        let mut host = TornHost::new(rt.alloc(), files.as_slice(), 1000, Fill::New)?;
        assert!(rt; matches!(make(rt.alloc(), &mut host), Ok(FileKind::Script0)));
        let left = host.left(rt.alloc())?;
        let expected: [&[u8]; 5] = [&SLOT, &[0, 0], &HEADER, &[], &HEADER];
        for (bytes, right) in left.iter().zip(expected) {
            assert_eq!(rt; bytes.as_slice(), right);
        }
    }
    Ok(())
}
