// Commits in the log of a database in memory.
ghost use Rattle.std.specs.Prelude.{◌<◌, length};
ghost use Rattle.hs_host.specs.Files.{IsOpen};

use crate::tests::support::opened;
use hs_host::{FileKind, Host};
use hs_log::{Batch, Log, LogFault, OpenedLog};
use hs_memhost::CallList;
use hs_values::Bytes;
use std::alloc::{AllocError, Global};
use std::test::Fail;

// A new log with one commit of session 3.
fn one_commit<H: Host>(alloc: Global, host: &mut H, text: &Bytes) -> Result<Option<Log>, Fail>
    requires { IsOpen (H.standing host.old) }
{
    let OpenedLog::New(mut log) = Log::open(alloc, host)? else {
        return Ok(None);
    };
    log.commit(host, 3, text)?;
    Ok(Some(log))
}

// One commit in a new log.
const ONE: &[u8] = b"\x01\x01\0\0\0\0\0\0\0\x01\x01\0\0\0\0\0\0\0\x07COMMIT\n\0";

// What the last session of the log is then, its size, and its bytes.
fn one_added(alloc: Global, text: &Bytes) -> Result<(Option<u32>, u64, Vec<u8>), Fail> {
    let mut host = opened(alloc, Vec::new(alloc), CallList::new(alloc))?;
    let log = one_commit(alloc, &mut host, text)?.ok_or("it was born")?;
    let bytes = host.image(FileKind::Log).to_vec(alloc)?;
    Ok((log.last(), log.size(), bytes))
}

#[test]
fn adds_a_commit(rt: HostRuntime) -> Result<(), Fail> {
    let text = Bytes::from_vec(b"COMMIT\n".to_vec(rt.alloc())?);
    let (last, size, bytes) = one_added(rt.alloc(), &text)?;
    assert!(rt; last == Some(3) && size == 26);
    assert_eq!(rt; bytes.as_slice(), ONE);
    Ok(())
}

// The text of a born log that has one text.
fn only_text<H: Host>(alloc: Global, host: &mut H) -> Result<Option<Bytes>, Fail>
    requires { IsOpen (H.standing host.old) }
{
    let OpenedLog::Born(mut reader) = Log::open(alloc, host)? else {
        return Ok(None);
    };
    if !reader.advance(host)? {
        return Ok(None);
    }
    let mut text = Bytes::new(alloc);
    text.extend(reader.text())?;
    if reader.advance(host)? {
        return Ok(None);
    }
    Ok(Some(text))
}

// The text of the log of one commit, and how many calls it took.
fn one_read(alloc: Global) -> Result<(Bytes, u64), Fail> {
    let mut host = opened(alloc, ONE.to_vec(alloc)?, CallList::new(alloc))?;
    let before = host.calls();
    let text = only_text(alloc, &mut host)?.ok_or("no text")?;
    Ok((text, host.calls().saturating_sub(before)))
}

// The length and the first byte are read, and then the length and the whole log at once.
#[test]
fn reads_a_commit(rt: HostRuntime) -> Result<(), Fail> {
    let (text, calls) = one_read(rt.alloc())?;
    assert_eq!(rt; text.as_slice(), b"COMMIT\n".as_slice());
    assert_eq!(rt; calls, 4);
    Ok(())
}

// Adds these commits to a new log.
fn many_commits<H: Host>(alloc: Global, host: &mut H, texts: &Batch) -> Result<(), LogFault>
    requires opened { IsOpen (H.standing host.old) }
    requires some { 0 < length texts.now }
{
    let OpenedLog::New(mut log) = Log::open(alloc, host)? else {
        return Ok(());
    };
    log.commit_all(host, 1, texts)
}

// Two commits, one behind the other.
const BOTH: &[u8] =
    b"\x01\x01\0\0\0\0\0\0\0\x01\x01\0\0\0\0\0\0\0\x0e/*C1*/\nCOMMIT\n\x01\0\0\0\0\0\0\0\x07COMMIT\n\0";

fn two_texts(alloc: Global) -> Result<Batch, AllocError> {
    let mut texts = Batch::new(alloc);
    texts.push(b"/*C1*/\nCOMMIT\n")?;
    texts.push(b"COMMIT\n")?;
    Ok(texts)
}

// The bytes of a new log behind these commits.
fn both_added(alloc: Global, texts: &Batch) -> Result<Vec<u8>, Fail>
    requires { 0 < length texts.now }
{
    let mut host = opened(alloc, Vec::new(alloc), CallList::new(alloc))?;
    many_commits(alloc, &mut host, texts)?;
    Ok(host.image(FileKind::Log).to_vec(alloc)?)
}

#[test]
fn adds_commits_as_if_each_were_alone(rt: HostRuntime) -> Result<(), Fail> {
    let texts = two_texts(rt.alloc())?;
    if texts.is_empty() {
        return Err("no text")?;
    }
    let bytes = both_added(rt.alloc(), &texts)?;
    assert_eq!(rt; bytes.as_slice(), BOTH);
    Ok(())
}

// A log of two texts, the second longer than the window through which texts are read, and bytes behind its end.
fn long_log(alloc: Global) -> Result<Vec<u8>, AllocError> {
    let mut log = ONE.to_vec(alloc)?;
    log.truncate(26);
    log.extend_from_slice(b"\x01\0\0\0\0\0\x02\0\0")?;
    log.extend_from_slice(&[65; 131_072])?;
    log.extend_from_slice(b"\0rest")?;
    Ok(log)
}

// How long the texts of a born log of two texts are, and what it is kept as behind them.
fn settle_two<H: Host>(alloc: Global, host: &mut H) -> Result<Option<(usize, usize, Log)>, Fail>
    requires { IsOpen (H.standing host.old) }
{
    let OpenedLog::Born(mut reader) = Log::open(alloc, host)? else {
        return Ok(None);
    };
    if !reader.advance(host)? {
        return Ok(None);
    }
    let first = reader.text().len();
    if !reader.advance(host)? {
        return Ok(None);
    }
    let second = reader.text().len();
    if reader.advance(host)? {
        return Ok(None);
    }
    let log = reader.settle(host, Some(5))?;
    Ok(Some((first, second, log)))
}

// The same of that log, and its bytes then.
fn two_settled(alloc: Global) -> Result<(usize, usize, Log, Vec<u8>), Fail> {
    let mut host = opened(alloc, long_log(alloc)?, CallList::new(alloc))?;
    let (first, second, log) = settle_two(alloc, &mut host)?.ok_or("other texts")?;
    Ok((first, second, log, host.image(FileKind::Log).to_vec(alloc)?))
}

#[test]
fn goes_on_behind_a_long_text(rt: HostRuntime) -> Result<(), Fail> {
    let (first, second, log, bytes) = two_settled(rt.alloc())?;
    assert!(rt; first == 7 && second == 131_072);
    assert!(rt; log.last() == Some(5) && log.size() == 131_107);
    let mut expected = long_log(rt.alloc())?;
    expected.truncate(131_108);
    assert_eq!(rt; bytes.as_slice(), expected.as_slice());
    Ok(())
}
