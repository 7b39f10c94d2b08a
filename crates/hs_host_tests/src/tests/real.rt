// What no contract can say: what the host over files does to real files and streams. Each test on files makes a
// folder and takes it away.
ghost use Rattle.std.specs.Prelude.{◌≡◌, IfOk};
ghost use Rattle.hs_host.specs.Files.{IsOpen, IsUnnamed};

use crate::tests::steps::{Row, Step, ZEROS, all_answer};
use crate::tests::stream::OneByte;
use hs_host::{FileKind, Host, HostFault, MountFault};
use hs_realhost::{FileHost, Reason};
use std::alloc::{AllocError, Global};
use std::os::unix::fs::symlink;
use std::test::Fail;
use std::{env, fs, process};

// Makes a folder for one test.
pub fn make_folder(rt: &HostRuntime, tag: &str) -> Result<String, Fail> {
    let alloc = rt.alloc();
    let place = env::temp_dir(rt)?.into_string();
    let number = process::id(rt.process());
    let folder = format!(in alloc; "{place}/hs_host_tests_{tag}_{number}")?;
    fs::create_dir(rt, folder.as_str())?;
    Ok(folder)
}

// A new host, whose input and output are interrupted so often.
fn new_host<'a>(
    rt: &'a HostRuntime,
    of_input: u32,
    of_output: u32,
) -> FileHost<'a, HostRuntime, OneByte, OneByte>
    ensures { IsUnnamed (⟦<FileHost<'a, HostRuntime, OneByte, OneByte> as Host>⟧.standing result) }
{
    FileHost::new(
        rt.alloc(),
        rt,
        OneByte::after(of_input),
        OneByte::after(of_output),
    )
}

// A host with the files of this name.
fn opened<'a>(
    rt: &'a HostRuntime,
    name: &str,
    of_input: u32,
    of_output: u32,
) -> Result<FileHost<'a, HostRuntime, OneByte, OneByte>, Fail>
    ensures { IfOk result (λ host. IsOpen (⟦<FileHost<'a, HostRuntime, OneByte, OneByte> as Host>⟧.standing host)) }
{
    let mut host = new_host(rt, of_input, of_output);
    host.mount(name)?;
    Ok(host)
}

// Mounts a database of this name by a new host.
pub fn mounted(rt: &HostRuntime, folder: &str, name: &str) -> Result<Result<(), MountFault>, Fail> {
    let name = format!(in rt.alloc(); "{folder}/{name}")?;
    Ok(new_host(rt, 0, 0).mount(name.as_str()))
}

// Writes a file's ending into that file, and says whether it alone stands there then.
fn keeps_its_ending<H: Host>(
    rt: &HostRuntime,
    host: &mut H,
    file: FileKind,
    name: &str,
    ending: &str,
) -> Result<bool, Fail>
    requires { IsOpen (H.standing host.old) }
    ensures { H.standing host.new ≡ H.standing host.old }
{
    let alloc = rt.alloc();
    let path = format!(in alloc; "{name}{ending}")?;
    let was_empty = fs::read(rt, path.as_str())?.is_empty();
    host.write(file, 0, ending.as_bytes())?;
    let bytes = fs::read(rt, path.as_str())?;
    Ok(was_empty && bytes.as_slice() == ending.as_bytes())
}

static ENDINGS: [(FileKind, &str); 5] = [
    (FileKind::Script0, ".script"),
    (FileKind::Script1, ".script.new"),
    (FileKind::Log, ".log"),
    (FileKind::Data, ".data"),
    (FileKind::Backup, ".backup"),
];

// The same of each file.
fn each_keeps_its_ending<H: Host>(rt: &HostRuntime, host: &mut H, name: &str) -> Result<bool, Fail>
    requires { IsOpen (H.standing host.old) }
{
    for (file, ending) in &ENDINGS {
        if !keeps_its_ending(rt, host, *file, name, ending)? {
            return Ok(false);
        }
    }
    Ok(true)
}

#[test]
fn mount_makes_five_files(rt: HostRuntime) -> Result<(), Fail> {
    let folder = make_folder(&rt, "five")?;
    let name = format!(in rt.alloc(); "{folder}/db")?;
    let mut host = opened(&rt, name.as_str(), 0, 0)?;
    assert!(rt; each_keeps_its_ending(&rt, &mut host, name.as_str())?);
    fs::remove_dir_all(&rt, folder.as_str())?;
    Ok(())
}

static KEPT: [Row; 6] = [
    (Step::Write(FileKind::Log, 0, b"abcdef"), Ok(0), ZEROS),
    (Step::Write(FileKind::Log, 4, b"xyz"), Ok(4), ZEROS),
    (Step::Len(FileKind::Log), Ok(7), ZEROS),
    (Step::Cut(FileKind::Log, 6), Ok(6), ZEROS),
    (Step::Sync(FileKind::Log), Ok(0), ZEROS),
    (Step::Read(FileKind::Log, 2), Ok(6), *b"cdxy"),
];

// The answers to a read beyond the end of the log, and to a write beyond the greatest length of a file.
fn beyond<'a>(
    host: &mut FileHost<'a, HostRuntime, OneByte, OneByte>,
) -> (Result<(), HostFault>, Result<(), HostFault>)
    requires { IsOpen (⟦<FileHost<'a, HostRuntime, OneByte, OneByte> as Host>⟧.standing host.old) }
{
    let mut buf = [0; 4];
    let read = host.read(FileKind::Log, 3, &mut buf);
    (read, host.write(FileKind::Log, 1 << 62, b"a"))
}

#[test]
fn keeps_bytes(rt: HostRuntime) -> Result<(), Fail> {
    let folder = make_folder(&rt, "bytes")?;
    let name = format!(in rt.alloc(); "{folder}/db")?;
    let mut host = opened(&rt, name.as_str(), 0, 0)?;
    all_answer(&rt, &mut host, &KEPT);
    assert!(rt; beyond(&mut host) == (Err(HostFault::Fault), Err(HostFault::Fault)));
    drop(host);
    let mut again = opened(&rt, name.as_str(), 0, 0)?;
    all_answer(&rt, &mut again, &[(Step::Len(FileKind::Log), Ok(6), ZEROS)]);
    fs::remove_dir_all(&rt, folder.as_str())?;
    Ok(())
}

static WRITTEN: [Row; 1] = [(Step::Write(FileKind::Log, 0, b"abc"), Ok(0), ZEROS)];

static LONG: [Row; 1] = [(Step::Len(FileKind::Log), Ok(3), ZEROS)];

#[test]
fn one_host_has_a_database(rt: HostRuntime) -> Result<(), Fail> {
    let folder = make_folder(&rt, "lock")?;
    let name = format!(in rt.alloc(); "{folder}/db")?;
    let mut host = opened(&rt, name.as_str(), 0, 0)?;
    all_answer(&rt, &mut host, &WRITTEN);
    // A host that finds the lock taken makes no file, and doesn't free the lock as it goes.
    let other = format!(in rt.alloc(); "{name}.script")?;
    fs::remove_file(&rt, other.as_str())?;
    for _ in 0..2 {
        let answer = mounted(&rt, folder.as_str(), "db")?;
        assert_eq!(rt; answer, Err(MountFault::Fault));
    }
    assert!(rt; !fs::exists(&rt, other.as_str())?);
    all_answer(&rt, &mut host, &LONG);
    assert_eq!(rt; mounted(&rt, folder.as_str(), "another")?, Ok(()));
    drop(host);
    assert_eq!(rt; mounted(&rt, folder.as_str(), "db")?, Ok(()));
    assert!(rt; fs::exists(&rt, other.as_str())?);
    fs::remove_dir_all(&rt, folder.as_str())?;
    Ok(())
}

// A folder in which the data file of the database `db` is a device that can't be synced, as a disk that fails.
fn make_failing_folder(rt: &HostRuntime, tag: &str) -> Result<String, Fail> {
    let folder = make_folder(rt, tag)?;
    let data = format!(in rt.alloc(); "{folder}/db.data")?;
    symlink(rt, "/dev/null", data.as_str())?;
    Ok(folder)
}

static SYNCS: [Row; 4] = [
    (Step::Sync(FileKind::Log), Ok(0), ZEROS),
    (Step::Sync(FileKind::Data), Err(HostFault::Fault), ZEROS),
    (Step::Sync(FileKind::Log), Err(HostFault::Fault), ZEROS),
    (Step::Sync(FileKind::Log), Err(HostFault::Fault), ZEROS),
];

#[test]
fn no_sync_is_believed_after_one_that_failed(rt: HostRuntime) -> Result<(), Fail> {
    let folder = make_failing_folder(&rt, "sync")?;
    let name = format!(in rt.alloc(); "{folder}/db")?;
    let mut host = opened(&rt, name.as_str(), 0, 0)?;
    all_answer(&rt, &mut host, &SYNCS);
    drop(host);
    let mut again = opened(&rt, name.as_str(), 0, 0)?;
    all_answer(&rt, &mut again, &SYNCS[..1]);
    fs::remove_dir_all(&rt, folder.as_str())?;
    Ok(())
}

fn words_of(alloc: Global, reason: Option<Reason<'_>>) -> Result<String, AllocError> {
    match reason {
        Some(reason) => format!(in alloc; "{reason}"),
        None => Ok(String::new(alloc)),
    }
}

#[test]
fn a_failing_call_has_its_reason(rt: HostRuntime) -> Result<(), Fail> {
    let alloc = rt.alloc();
    let folder = make_failing_folder(&rt, "reason")?;
    let name = format!(in alloc; "{folder}/db")?;
    let mut host = opened(&rt, name.as_str(), 0, 0)?;
    assert!(rt; host.disk_reason().is_none());
    all_answer(&rt, &mut host, &SYNCS[1..2]);
    let said = words_of(alloc, host.disk_reason())?;
    let wanted = format!(in alloc; "{name}.data: Invalid argument (os error 22)")?;
    assert_eq!(rt; said.as_str(), wanted.as_str());
    assert!(rt; host.input_reason().is_none() && host.output_reason().is_none());
    fs::remove_dir_all(&rt, folder.as_str())?;
    Ok(())
}

static STREAMS: [Row; 4] = [
    (Step::Ask, Ok(1), *b"i\0\0\0"),
    (Step::Ask, Err(HostFault::Fault), ZEROS),
    (Step::Tell(b"xy"), Ok(1), ZEROS),
    (Step::Tell(b"y"), Err(HostFault::Fault), ZEROS),
];

// A call that is interrupted is made again.
#[test]
fn streams_are_read_and_written(rt: HostRuntime) -> Result<(), Fail> {
    let folder = make_folder(&rt, "streams")?;
    let name = format!(in rt.alloc(); "{folder}/db")?;
    for (of_input, of_output) in [(0, 0), (3, 2)] {
        let mut host = opened(&rt, name.as_str(), of_input, of_output)?;
        all_answer(&rt, &mut host, &STREAMS);
    }
    fs::remove_dir_all(&rt, folder.as_str())?;
    Ok(())
}
