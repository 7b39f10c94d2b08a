// Files written by hand, and what no clause says: that the calls succeed where memory is there.
ghost use Rattle.std.specs.Prelude.{◌<◌, length};
ghost use Rattle.hs_host.specs.Files.{IsOpen};

use crate::tests::support::{one_call, opened};
use hs_gate::{Batch, GateFault, Gated, Part};
use hs_host::{FileKind, Host};
use hs_memhost::CallList;
use std::alloc::{AllocError, Global};
use std::test::Fail;

// A birth byte, an open header gate, epoch 1, a group `A`, an empty group, a closed gate.
const SMALL: [u8; 30] = [
    1, 1, 0, 0, 0, 0, 0, 0, 0, 1, 1, 0, 0, 0, 0, 0, 0, 0, 1, 65, 1, 0, 0, 0, 0, 0, 0, 0, 0, 0,
];

// A place, and what the file is read as where 0, 1, 7 and 255 stand there: none, the first broken group, or its
// epoch, its groups and the place behind them.
const CHANGED: &str = "\
0 1:2@29 1:2@29 1:2@29 1:2@29\n\
1 - 1:2@29 - -\n\
2 1:2@29 72057594037927937:2@29 504403158265495553:2@29 18374686479671623681:2@29\n\
3 1:2@29 281474976710657:2@29 1970324836974593:2@29 71776119061217281:2@29\n\
4 1:2@29 1099511627777:2@29 7696581394433:2@29 280375465082881:2@29\n\
5 1:2@29 4294967297:2@29 30064771073:2@29 1095216660481:2@29\n\
6 1:2@29 16777217:2@29 117440513:2@29 4278190081:2@29\n\
7 1:2@29 65537:2@29 458753:2@29 16711681:2@29\n\
8 1:2@29 257:2@29 1793:2@29 65281:2@29\n\
9 0:2@29 1:2@29 7:2@29 255:2@29\n\
10 1:0@10 1:2@29 1:0@10 1:0@10\n\
11 1:2@29 !1 !1 !1\n\
12 1:2@29 !1 !1 !1\n\
13 1:2@29 !1 !1 !1\n\
14 1:2@29 !1 !1 !1\n\
15 1:2@29 !1 !1 !1\n\
16 1:2@29 !1 !1 !1\n\
17 1:2@29 !1 !1 !1\n\
18 1:1@19 1:2@29 1:1@26 !1\n\
19 1:2@29 1:2@29 1:2@29 1:2@29\n\
20 1:1@20 1:2@29 1:1@20 1:1@20\n\
21 1:2@29 !2 !2 !2\n\
22 1:2@29 !2 !2 !2\n\
23 1:2@29 !2 !2 !2\n\
24 1:2@29 !2 !2 !2\n\
25 1:2@29 !2 !2 !2\n\
26 1:2@29 !2 !2 !2\n\
27 1:2@29 !2 !2 !2\n\
28 1:2@29 !2 !2 !2\n\
29 1:2@29 !3 1:2@29 1:2@29\n";

// What its first bytes are read as, from none of them on.
const CUT: &str = "\
- - - - - - - - - - - !1 \
!1 !1 !1 !1 !1 !1 !1 !1 !1 !2 !2 !2 \
!2 !2 !2 !2 !2 !2 1:2@29 ";

// What a log is read as.
fn reading<H: Host>(alloc: Global, host: &mut H) -> Result<String, AllocError>
    requires { IsOpen (H.standing host.old) }
{
    match Gated::read(alloc, host, FileKind::Log) {
        Ok(None) => format!(in alloc; "-"),
        Ok(Some(g)) => format!(in alloc; "{}:{}@{}", g.epoch, g.groups, g.end),
        Err(GateFault::Broken(number)) => format!(in alloc; "!{number}"),
        Err(fault) => format!(in alloc; "{fault:?}"),
    }
}

// What these bytes are read as.
fn reading_of(alloc: Global, log: Vec<u8>) -> Result<String, Fail> {
    let mut host = opened(alloc, log, CallList::new(alloc))?;
    Ok(reading(alloc, &mut host)?)
}

// Adds what the file is read as with this value at a place.
fn show_changed(to: &mut String, place: usize, value: u8) -> Result<(), Fail> {
    let alloc = *to.allocator();
    let mut log = SMALL.to_vec(alloc)?;
    if let Some(byte) = log.get_mut(place) {
        *byte = value;
    }
    to.push_str(" ")?;
    to.push_str(reading_of(alloc, log)?.as_str())?;
    Ok(())
}

// Adds a place, and what the file is read as with each value there.
fn show_place(to: &mut String, place: usize) -> Result<(), Fail> {
    write!(to, "{place}")?;
    for value in [0, 1, 7, 255] {
        show_changed(to, place, value)?;
    }
    to.push_str("\n")?;
    Ok(())
}

#[test]
fn reads_each_changed_byte(rt: HostRuntime) -> Result<(), Fail> {
    let mut shown = String::new(rt.alloc());
    for place in 0..30 {
        show_place(&mut shown, place)?;
    }
    assert_eq!(rt; shown.as_str(), CHANGED);
    Ok(())
}

// Adds what the first bytes of the file are read as.
fn show_cut(to: &mut String, length: usize) -> Result<(), Fail> {
    let alloc = *to.allocator();
    let mut log = SMALL.to_vec(alloc)?;
    log.truncate(length);
    to.push_str(reading_of(alloc, log)?.as_str())?;
    to.push_str(" ")?;
    Ok(())
}

#[test]
fn reads_each_cut_file(rt: HostRuntime) -> Result<(), Fail> {
    let mut shown = String::new(rt.alloc());
    for length in 0..31 {
        show_cut(&mut shown, length)?;
    }
    assert_eq!(rt; shown.as_str(), CUT);
    Ok(())
}

// 9,000 empty groups, a long one, and a closed gate.
fn many_groups(alloc: Global) -> Result<Vec<u8>, AllocError> {
    let mut log = b"\x01\x01\0\0\0\0\0\0\0\x02".to_vec(alloc)?;
    for _ in 0..9_000 {
        log.extend_from_slice(b"\x01\0\0\0\0\0\0\0\0")?;
    }
    log.extend_from_slice(b"\x01\0\0\0\0\0\x02\0\0")?;
    log.extend_from_slice(&[1; 131_072])?;
    log.push(0)?;
    Ok(log)
}

#[test]
fn reads_beyond_the_window(rt: HostRuntime) -> Result<(), Fail> {
    let alloc = rt.alloc();
    let log = many_groups(alloc)?;
    assert_eq!(rt; reading_of(alloc, log)?.as_str(), "2:9001@212091");
    Ok(())
}

const FIRST: &[u8] = b"/*C1*/\nCREATE MEMORY TABLE T(ID INTEGER,V INTEGER)\nCOMMIT\n";

const SECOND: &[u8] = b"INSERT INTO T VALUES(1,10)\nCOMMIT\n";

const LONG: &[u8] = &[65; 300];

// Of a file that isn't born: it is made, and three groups are added, each alone.
fn add_three<H: Host>(host: &mut H) -> Result<Gated, GateFault>
    requires { IsOpen (H.standing host.old) }
{
    let mut log = Gated::create(host, FileKind::Log)?;
    log.append(host, FIRST)?;
    log.append(host, SECOND)?;
    log.append(host, LONG)?;
    log.settle(host)?;
    Ok(log)
}

// The bytes of the three groups, in parts.
static PARTS: [&[u8]; 7] = [
    b"\x01\x01\0\0\0\0\0\0\0\x01\x01\0\0\0\0\0\0\0\x3a",
    FIRST,
    b"\x01\0\0\0\0\0\0\0\x22",
    SECOND,
    b"\x01\0\0\0\0\0\0\x01\x2c",
    LONG,
    b"\0",
];

fn three_groups(alloc: Global) -> Result<Vec<u8>, AllocError> {
    let mut log = Vec::new(alloc);
    for part in &PARTS {
        log.extend_from_slice(part)?;
    }
    Ok(log)
}

// What the log is held as then, and its bytes.
fn three_added(alloc: Global) -> Result<(Gated, Vec<u8>), Fail> {
    let mut host = opened(alloc, [7; 200].to_vec(alloc)?, CallList::new(alloc))?;
    let log = add_three(&mut host)?;
    Ok((log, host.image(FileKind::Log).to_vec(alloc)?))
}

#[test]
fn adds_groups(rt: HostRuntime) -> Result<(), Fail> {
    let (log, bytes) = three_added(rt.alloc())?;
    assert!(rt; log.epoch == 1 && log.groups == 3 && log.end == 429);
    let expected = three_groups(rt.alloc())?;
    assert_eq!(rt; bytes.as_slice(), expected.as_slice());
    Ok(())
}

// Whether a log is born, before it is made and behind that.
fn births<H: Host>(host: &mut H) -> Result<(bool, bool), GateFault>
    requires { IsOpen (H.standing host.old) }
{
    let before = Gated::is_born(host, FileKind::Log)?;
    Gated::create(host, FileKind::Log)?;
    Ok((before, Gated::is_born(host, FileKind::Log)?))
}

// The same of other bytes, and what stands there behind that.
fn made(alloc: Global) -> Result<(bool, bool, Vec<u8>), Fail> {
    let mut host = opened(alloc, [7; 200].to_vec(alloc)?, CallList::new(alloc))?;
    let (before, after) = births(&mut host)?;
    Ok((before, after, host.image(FileKind::Log).to_vec(alloc)?))
}

#[test]
fn makes_a_file(rt: HostRuntime) -> Result<(), Fail> {
    let (before, after, bytes) = made(rt.alloc())?;
    assert!(rt; !before && after);
    assert_eq!(rt; bytes.as_slice(), BORN);
    Ok(())
}

// A file, and the first two of its groups.
#[tactic(auto, using(hs_gate::proofs::Parts::first_place))]
fn two_parts<H: Host>(alloc: Global, host: &mut H) -> Result<Option<(Gated, Part, Part)>, GateFault>
    requires { IsOpen (H.standing host.old) }
{
    let Some(gated) = Gated::read(alloc, host, FileKind::Log)? else {
        return Ok(None);
    };
    let Some(first) = gated.part(alloc, host, 10)? else {
        return Ok(None);
    };
    let Some(second) = gated.part(alloc, host, first.next)? else {
        return Ok(None);
    };
    Ok(Some((gated, first, second)))
}

// A long group, a short one, and a gate that isn't open with one more byte behind it.
static TWO_GROUPS: [&[u8]; 3] = [
    b"\x01\x01\0\0\0\0\0\0\0\x02\x01\0\0\0\0\0\0\x02\0",
    &[65; 512],
    b"\x01\0\0\0\0\0\0\0\x02ab\x07\0",
];

fn parts_of_two(alloc: Global) -> Result<Option<(Gated, Part, Part)>, Fail> {
    let mut log = Vec::new(alloc);
    for part in &TWO_GROUPS {
        log.extend_from_slice(part)?;
    }
    let mut host = opened(alloc, log, CallList::new(alloc))?;
    Ok(two_parts(alloc, &mut host)?)
}

#[test]
fn reads_parts(rt: HostRuntime) -> Result<(), Fail> {
    let (gated, first, second) = parts_of_two(rt.alloc())?.ok_or("closed")?;
    assert!(rt; gated.groups == 2 && gated.end == 542);
    assert!(rt; first.next == 531 && second.next == 542);
    assert_eq!(rt; first.payload.as_slice(), [65; 512].as_slice());
    assert_eq!(rt; second.payload.as_slice(), b"ab".as_slice());
    Ok(())
}

// Brings an open file to the disk, and starts it anew with epoch 258.
fn start_anew<H: Host>(
    alloc: Global,
    host: &mut H,
    file: FileKind,
) -> Result<Option<Gated>, GateFault>
    requires { IsOpen (H.standing host.old) }
{
    let Some(gated) = Gated::read(alloc, host, file)? else {
        return Ok(None);
    };
    gated.settle(host)?;
    Ok(Some(Gated::start(host, gated.file, 258)?))
}

// Whether it is open then, how many calls were made, and its bytes.
fn started(alloc: Global) -> Result<(bool, u64, Vec<u8>), Fail> {
    let mut host = opened(alloc, SMALL.to_vec(alloc)?, CallList::new(alloc))?;
    let is_open = start_anew(alloc, &mut host, FileKind::Log)?.is_some();
    let bytes = host.image(FileKind::Log).to_vec(alloc)?;
    Ok((is_open, host.calls(), bytes))
}

#[test]
fn starts_anew(rt: HostRuntime) -> Result<(), Fail> {
    let (is_open, calls, bytes) = started(rt.alloc())?;
    assert!(rt; is_open && calls == 13);
    let expected = b"\x01\x01\0\0\0\0\0\0\x01\x02\0";
    assert_eq!(rt; bytes.as_slice(), expected.as_slice());
    Ok(())
}

// Makes a log, and adds a group: the answer to that, and what the log is then held as.
fn add_one<H: Host>(
    host: &mut H,
    payload: &[u8],
) -> Result<(Result<(), GateFault>, Gated), GateFault>
    requires { IsOpen (H.standing host.old) }
{
    let mut log = Gated::create(host, FileKind::Log)?;
    let answer = log.append(host, payload);
    Ok((answer, log))
}

// Whether adding this group fails with this call, and leaves what the log is held as.
fn append_fails(alloc: Global, payload: &[u8], call: u64) -> Result<bool, Fail> {
    let mut host = opened(alloc, Vec::new(alloc), one_call(alloc, call)?)?;
    let (answer, log) = add_one(&mut host, payload)?;
    Ok(answer == Err(GateFault::Disk) && log.groups == 0 && log.end == 10)
}

#[test]
fn each_call_of_an_append_may_fail(rt: HostRuntime) -> Result<(), Fail> {
    for call in 6..10 {
        assert!(rt; append_fails(rt.alloc(), b"a", call)?, "call {call}");
    }
    for call in 6..12 {
        assert!(rt; append_fails(rt.alloc(), LONG, call)?, "call {call}");
    }
    Ok(())
}

// Makes a log, and adds groups at once: what it is read as again where that failed.
fn add_together<H: Host>(
    alloc: Global,
    host: &mut H,
    batch: &Batch,
) -> Result<Option<Gated>, GateFault>
    requires opened { IsOpen (H.standing host.old) }
    requires some { 0 < length batch.now }
{
    let mut log = Gated::create(host, FileKind::Log)?;
    if log.append_all(host, batch).is_ok() {
        return Ok(Some(log));
    }
    Gated::read(alloc, host, FileKind::Log)
}

// A new file, to which three groups are added at once with this call failing: how many it has when it is read again.
fn groups_after(alloc: Global, long: &[u8], call: u64) -> Result<u64, Fail> {
    let mut host = opened(alloc, Vec::new(alloc), one_call(alloc, call)?)?;
    let mut batch = Batch::new(alloc);
    batch.push(b"a")?;
    batch.push(b"")?;
    batch.push(long)?;
    if batch.is_empty() {
        return Err("no group")?;
    }
    let log = add_together(alloc, &mut host, &batch)?.ok_or("closed")?;
    Ok(log.groups)
}

// The last group, the call that fails, and how many groups there are then.
static ADDED: [(&[u8], u64, u64); 11] = [
    (b"bc", 6, 0),
    (b"bc", 7, 0),
    (b"bc", 8, 0),
    (b"bc", 9, 3),
    (b"bc", 99, 3),
    (LONG, 6, 0),
    (LONG, 8, 0),
    (LONG, 9, 0),
    (LONG, 10, 0),
    (LONG, 11, 3),
    (LONG, 99, 3),
];

// The groups are written and synced, and then their gate is opened and synced.
#[test]
fn three_groups_are_added_or_none(rt: HostRuntime) -> Result<(), Fail> {
    for (long, call, expected) in &ADDED {
        assert_eq!(rt;
            groups_after(rt.alloc(), long, *call)?,
            *expected,
            "call {call}"
        );
    }
    Ok(())
}

// A new file before its birth byte is made 1, and behind that.
const UNBORN: &[u8] = b"\0\x01\0\0\0\0\0\0\0\x01\0";

const BORN: &[u8] = b"\x01\x01\0\0\0\0\0\0\0\x01\0";

const OLD: &[u8] = b"abcdefghijklm";

// An old file, the call of its creation that fails, and what is left: a write, a cut and a sync, and then the birth byte
// and its sync.
static CREATED: [(&[u8], u64, &[u8]); 10] = [
    (b"", 1, b""),
    (OLD, 1, OLD),
    (b"", 2, UNBORN),
    (OLD, 2, b"\0\x01\0\0\0\0\0\0\0\x01\0lm"),
    (b"", 3, UNBORN),
    (OLD, 3, UNBORN),
    (b"", 4, UNBORN),
    (OLD, 4, UNBORN),
    (b"", 5, BORN),
    (OLD, 5, BORN),
];

// Whether a log can't be made, for a fault of the disk.
fn cannot_be_made<H: Host>(host: &mut H) -> bool
    requires { IsOpen (H.standing host.old) }
{
    Gated::create(host, FileKind::Log) == Err(GateFault::Disk)
}

#[test]
fn each_call_of_a_creation_may_fail(rt: HostRuntime) -> Result<(), Fail> {
    let alloc = rt.alloc();
    for (old, call, left) in &CREATED {
        let mut host = opened(alloc, old.to_vec(alloc)?, one_call(alloc, *call)?)?;
        assert!(rt; cannot_be_made(&mut host), "call {call}");
        assert_eq!(rt; host.image(FileKind::Log), *left, "call {call}");
    }
    Ok(())
}

#[test]
fn a_creation_makes_five_calls(rt: HostRuntime) -> Result<(), Fail> {
    let alloc = rt.alloc();
    let mut host = opened(alloc, Vec::new(alloc), CallList::new(alloc))?;
    assert!(rt; !cannot_be_made(&mut host));
    assert_eq!(rt; host.calls(), 6);
    Ok(())
}
