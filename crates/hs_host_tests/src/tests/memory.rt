// Hosts in memory: what no clause says, that their calls succeed where memory is there, and which of them fail.
ghost use Rattle.std.specs.Prelude.{IfOk};
ghost use Rattle.hs_host.specs.Files.{IsOpen};

use crate::tests::steps::{Row, Step, ZEROS, all_answer};
use hs_host::{FileKind, Host, HostFault, MountFault};
use hs_memhost::{CallList, Images, MemHost, NeverFails};
use hs_values::Bytes;
use std::alloc::{AllocError, Global};
use std::test::Fail;

// Reads come in pieces of two and three bytes. The calls 2 and 5 fail, of which 0 is the mount.
static STREAMS: [Row; 7] = [
    (Step::Ask, Ok(2), *b"ab\0\0"),
    (Step::Ask, Err(HostFault::Fault), ZEROS),
    (Step::Ask, Ok(3), *b"cde\0"),
    (Step::Tell(b"xy"), Ok(2), ZEROS),
    (Step::Tell(b"z"), Err(HostFault::Fault), ZEROS),
    (Step::Ask, Ok(1), *b"f\0\0\0"),
    (Step::Ask, Ok(0), ZEROS),
];

#[test]
fn reads_and_writes(rt: HostRuntime) -> Result<(), Fail> {
    let alloc = rt.alloc();
    let input = Bytes::from_vec(b"abcdef".to_vec(alloc)?);
    let failing = CallList::from_vec([2, 5].to_vec(alloc)?);
    let mut host = MemHost::new(alloc, input, Images::new(alloc), false, failing);
    host.mount("d")?;
    host.give_in_pieces([2, 3].to_vec(alloc)?);
    all_answer(&rt, &mut host, &STREAMS);
    assert_eq!(rt; host.output(), b"xy".as_slice());
    assert_eq!(rt; host.calls(), 8);
    Ok(())
}

static WHOLE_INPUT: [Row; 3] = [
    (Step::Ask, Ok(3), *b"abc\0"),
    (Step::Ask, Ok(0), ZEROS),
    (Step::Tell(b"xy"), Ok(2), ZEROS),
];

#[test]
fn never_fails(rt: HostRuntime) -> Result<(), Fail> {
    let alloc = rt.alloc();
    let input = Bytes::from_vec(b"abc".to_vec(alloc)?);
    let mut host = NeverFails::new(alloc, input, Images::new(alloc));
    host.mount("d")?;
    all_answer(&rt, &mut host, &WHOLE_INPUT);
    assert_eq!(rt; host.output(), b"xy".as_slice());
    Ok(())
}

#[test]
fn calls_are_listed(rt: HostRuntime) -> Result<(), Fail> {
    let calls = CallList::from_vec([7].to_vec(rt.alloc())?).copy()?;
    assert!(rt; calls.contains(7) && !calls.contains(8));
    Ok(())
}

// `abcdef` is written, `xyz` put at its place 4, the last byte cut, `QQ` put at place 1, and four bytes read from place 2
// on.
static LOG: [Row; 7] = [
    (Step::Write(FileKind::Log, 0, b"abcdef"), Ok(0), ZEROS),
    (Step::Write(FileKind::Log, 4, b"xyz"), Ok(4), ZEROS),
    (Step::Cut(FileKind::Log, 6), Ok(6), ZEROS),
    (Step::Write(FileKind::Log, 1, b"QQ"), Ok(1), ZEROS),
    (Step::Sync(FileKind::Log), Ok(0), ZEROS),
    (Step::Len(FileKind::Log), Ok(6), ZEROS),
    (Step::Read(FileKind::Log, 2), Ok(6), *b"Qdxy"),
];

// A host with these files, which are open.
fn opened(alloc: Global, files: Images, failing: CallList) -> Result<MemHost, Fail>
    ensures { IfOk result (λ host. IsOpen (⟦<MemHost as Host>⟧.standing host)) }
{
    let mut host = MemHost::new(alloc, Bytes::new(alloc), files, false, failing);
    host.mount("d")?;
    Ok(host)
}

fn with_backup(alloc: Global, backup: Bytes) -> Images {
    let mut files = Images::new(alloc);
    files.backup = backup;
    files
}

// Files of which the fifth has bytes, once more.
fn old_files(alloc: Global) -> Result<Images, AllocError> {
    let files = with_backup(alloc, Bytes::from_vec(b"old".to_vec(alloc)?));
    files.copy()
}

#[test]
fn keeps_files(rt: HostRuntime) -> Result<(), Fail> {
    let alloc = rt.alloc();
    let mut host = opened(alloc, old_files(alloc)?, CallList::new(alloc))?;
    all_answer(&rt, &mut host, &LOG);
    assert_eq!(rt; host.image(FileKind::Log), b"aQQdxy".as_slice());
    assert_eq!(rt; host.image(FileKind::Backup), b"old".as_slice());
    assert_eq!(rt; host.calls(), 13);
    Ok(())
}

#[test]
fn keeps_files_and_never_fails(rt: HostRuntime) -> Result<(), Fail> {
    let alloc = rt.alloc();
    let mut host = NeverFails::new(alloc, Bytes::new(alloc), old_files(alloc)?);
    host.mount("d")?;
    all_answer(&rt, &mut host, &LOG);
    assert_eq!(rt; host.image(FileKind::Log), b"aQQdxy".as_slice());
    assert_eq!(rt; host.image(FileKind::Backup), b"old".as_slice());
    Ok(())
}

// The calls 2, 3 and 6 fail.
static FAILING: [Row; 5] = [
    (
        Step::Write(FileKind::Data, 0, b"a"),
        Err(HostFault::Fault),
        ZEROS,
    ),
    (Step::Sync(FileKind::Data), Err(HostFault::Fault), ZEROS),
    (Step::Len(FileKind::Data), Ok(0), ZEROS),
    (
        Step::Cut(FileKind::Script1, 0),
        Err(HostFault::Fault),
        ZEROS,
    ),
    (Step::Sync(FileKind::Script0), Ok(0), ZEROS),
];

#[test]
fn calls_on_files_fail(rt: HostRuntime) -> Result<(), Fail> {
    let alloc = rt.alloc();
    let failing = CallList::from_vec([2, 3, 6].to_vec(alloc)?);
    let mut host = opened(alloc, Images::new(alloc), failing)?;
    all_answer(&rt, &mut host, &FAILING);
    assert_eq!(rt; host.calls(), 8);
    Ok(())
}

// What mounting another program's files answers, while these calls fail.
fn mounted(alloc: Global, failing: CallList) -> Result<(), MountFault> {
    let files = Images::new(alloc);
    let mut host = MemHost::new(alloc, Bytes::new(alloc), files, true, failing);
    host.mount("d")
}

#[test]
fn foreign_files_are_not_mounted(rt: HostRuntime) -> Result<(), Fail> {
    let alloc = rt.alloc();
    let first = CallList::from_vec([0].to_vec(alloc)?);
    let answer = mounted(alloc, first);
    assert_eq!(rt; answer, Err(MountFault::Fault));
    let answer = mounted(alloc, CallList::new(alloc));
    assert_eq!(rt; answer, Err(MountFault::Foreign));
    Ok(())
}
