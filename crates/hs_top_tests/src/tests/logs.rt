// The files of a run: what faults of the devices do to its log, and that it leaves another program's.
use crate::tests::support::{shown, words};
use hs_host::FileKind;
use hs_memhost::{CallList, Images, MemHost};
use hs_top::{Damage, Status, run};
use hs_values::Bytes;
use std::alloc::Global;
use std::process::Abort;
use std::test::Fail;

const FIRST: &[u8] =
    b"a: CREATE TABLE T (N BIGINT, M BIGINT);a: INSERT INTO T VALUES (2,5);a: INSERT INTO T VALUES (1,-7);a: SELECT * FROM T;a: SELECT * FROM U;a: CREATE TABLE T (N BIGINT);a: COMMIT;";

// A log of two commits, by two sessions.
const TWO: &[u8] = b"a: CREATE TABLE T (N BIGINT);b: INSERT INTO T VALUES (7);";

// Longer than any input.
const WHOLE: [usize; 1] = [100_000];

// The calls of the host in a run, by their devices: the disk, the output and the input. A log that is born and short is
// looked at by two calls, read by two, and synced, cut and synced again, which are as many as a new one takes. The two
// commits of the input are written together.
const CALLS: &str = "DDDDDDDOIDDDDOIO";

// Four sessions, entry by entry. The transaction of b holds c and d up, so that the insert of d is committed with it.
const FOUR: &[u8] =
    b"a: CREATE TABLE T (ID INTEGER PRIMARY KEY, V INTEGER);b: START TRANSACTION;b: INSERT INTO T VALUES (1,10);c: SELECT V FROM T;d: INSERT INTO T VALUES (2,20);b: COMMIT;a: DELETE FROM T WHERE ID = 1;";

const FOUR_PIECES: [usize; 7] = [54, 21, 31, 19, 31, 10, 30];

const FOUR_CALLS: &str = "DDDDDDDOIDDDDOIOIOIOIOIDDDDOIDDDDOIO";

// As many bytes as ` committed 1/` has.
const END_BYTES: usize = 13;

// How many of the first five commits were acknowledged in whole lines.
fn acknowledged(text: &[u8]) -> u32 {
    let ends = [
        b" committed 1/".as_slice(),
        b" committed 2/".as_slice(),
        b" committed 3/".as_slice(),
        b" committed 4/".as_slice(),
        b" committed 5/".as_slice(),
    ];
    let mut count = 0u32;
    for end in ends {
        if text.windows(END_BYTES).any(|piece| piece == end) {
            count = count.saturating_add(1);
        }
    }
    count
}

// A run whose calls are to fail: its input in pieces, the log before it, the calls, and at how many commits a log opens that
// it may leave.
#[derive(Clone, Copy)]
struct Failing<'a> {
    input: &'a [u8],
    pieces: &'a [usize],
    log: &'a [u8],
    calls: &'a str,
    opens: &'a [u32],
}

// Each call fails in turn: the status is that device's, a prefix of the output is written, and the log that is left opens
// where it may, and not before a commit that was acknowledged. Commits behind one gate are all there or none.
fn each_call_fails(rt: &impl Abort, alloc: Global, run: &Failing<'_>) -> Result<(), Fail> {
    let whole = shown(alloc, run.input, run.pieces, run.log, &[])?;
    let commits = run.opens.first().copied().unwrap_or(0);
    for (call, device) in run.calls.bytes().enumerate() {
        let failed = shown(alloc, run.input, run.pieces, run.log, &[call as u64])?;
        let wanted = match device {
            b'D' => Status::DiskFault,
            b'O' => Status::OutputFault,
            _ => Status::InputFault,
        };
        assert_eq!(rt; failed.status, wanted, "at call {call}");
        assert!(rt; whole.text.starts_with(&failed.text), "at call {call}");
        let again = shown(alloc, b"", &WHOLE, &failed.log, &[])?;
        assert_eq!(rt; again.status, Status::Done, "at call {call}");
        let opened = match again.text.get(10) {
            Some(digit) => u32::from(*digit).saturating_sub(48),
            None => 9,
        };
        let least = commits.saturating_add(acknowledged(&failed.text));
        assert!(rt; least <= opened, "at call {call}");
        assert!(rt; run.opens.contains(&opened), "at call {call}");
    }
    let past = run.calls.len() as u64;
    let last = shown(alloc, run.input, run.pieces, run.log, &[past])?;
    assert_eq!(rt; last.status, Status::Done);
    Ok(())
}

#[test]
fn failing_calls(rt: HostRuntime) -> Result<(), Fail> {
    let run = Failing {
        input: TWO,
        pieces: &WHOLE,
        log: b"",
        calls: CALLS,
        opens: &[0, 2],
    };
    each_call_fails(&rt, rt.alloc(), &run)
}

// The first example's log, with a part of a group behind its closed gate.
#[test]
fn failing_calls_over_a_torn_log(rt: HostRuntime) -> Result<(), Fail> {
    let alloc = rt.alloc();
    let mut log = shown(alloc, FIRST, &WHOLE, b"", &[])?.log;
    log.extend_from_slice(b"\0\0\0\0\0\0\0\x22INSERT INTO T")?;
    let run = Failing {
        input: b"a: INSERT INTO T VALUES (3,3);b: INSERT INTO T VALUES (4,4);",
        pieces: &WHOLE,
        log: &log,
        calls: CALLS,
        opens: &[3, 5],
    };
    each_call_fails(&rt, alloc, &run)
}

#[test]
fn failing_calls_of_four_sessions(rt: HostRuntime) -> Result<(), Fail> {
    let run = Failing {
        input: FOUR,
        pieces: &FOUR_PIECES,
        log: b"",
        calls: FOUR_CALLS,
        opens: &[0, 1, 3, 4],
    };
    each_call_fails(&rt, rt.alloc(), &run)
}

// Files of another program: nothing is changed and nothing written.
#[test]
fn foreign_files(rt: HostRuntime) -> Result<(), Fail> {
    let alloc = rt.alloc();
    let files = Images {
        script0: Bytes::from_vec(b"their script".to_vec(alloc)?),
        script1: Bytes::from_vec(b"their new script".to_vec(alloc)?),
        log: Bytes::from_vec(b"their log".to_vec(alloc)?),
        pages: Bytes::from_vec(b"their data".to_vec(alloc)?),
        backup: Bytes::from_vec(b"their backup".to_vec(alloc)?),
    };
    let input = Bytes::from_vec(TWO.to_vec(alloc)?);
    let mut host = MemHost::new(alloc, input, files, true, CallList::new(alloc));
    let status = run(alloc, &words(alloc, &["hsql", "db"])?, &mut host);
    assert_eq!(rt; status, Status::Damaged(Damage::Foreign));
    assert_eq!(rt; host.output(), b"".as_slice());
    for (file, left) in [
        (FileKind::Script0, b"their script".as_slice()),
        (FileKind::Script1, b"their new script".as_slice()),
        (FileKind::Log, b"their log".as_slice()),
        (FileKind::Data, b"their data".as_slice()),
        (FileKind::Backup, b"their backup".as_slice()),
    ] {
        assert_eq!(rt; host.image(file), left);
    }
    Ok(())
}
