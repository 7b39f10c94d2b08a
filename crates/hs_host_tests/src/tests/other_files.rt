// Files that the host over files leaves alone.
use crate::tests::real::{make_folder, mounted};
use hs_host::MountFault;
use std::fs;
use std::os::unix::fs::symlink;
use std::test::Fail;

// What is put into a folder.
enum Put {
    Nothing,
    // A name and a content.
    File(&'static str, &'static str),
    Folder(&'static str),
    // A link that leads nowhere.
    Link(&'static str),
}

fn prepare(rt: &HostRuntime, folder: &str, what: &Put) -> Result<(), Fail> {
    let alloc = rt.alloc();
    match what {
        Put::Nothing => {}
        Put::File(name, content) => {
            let path = format!(in alloc; "{folder}/{name}")?;
            fs::write(rt, path.as_str(), content.as_bytes())?;
        }
        Put::Folder(name) => {
            let path = format!(in alloc; "{folder}/{name}")?;
            fs::create_dir(rt, path.as_str())?;
        }
        Put::Link(name) => {
            let path = format!(in alloc; "{folder}/{name}")?;
            symlink(rt, "nowhere", path.as_str())?;
        }
    }
    Ok(())
}

// What is put into the folder, a name, what mounting it answers, and the files that aren't there then.
static CASES: [(Put, &str, Result<(), MountFault>, &[&str]); 10] = [
    (
        Put::File("a.properties", "version=2"),
        "a",
        Err(MountFault::Foreign),
        &["a.script", "a.script.new", "a.log", "a.data", "a.backup"],
    ),
    (
        Put::File("lone.log", "a line"),
        "lone",
        Err(MountFault::Foreign),
        &["lone.backup"],
    ),
    (Put::File("lone.backup", ""), "lone", Ok(()), &[]),
    (Put::Folder("b.data"), "b", Err(MountFault::Fault), &[]),
    (Put::Nothing, "none/c", Err(MountFault::Fault), &[]),
    (Put::Nothing, "a.properties/d", Err(MountFault::Fault), &[]),
    (Put::Nothing, "", Err(MountFault::Fault), &[]),
    (Put::Nothing, ".", Err(MountFault::Fault), &["..log"]),
    (Put::Nothing, "..", Err(MountFault::Fault), &["...log"]),
    (
        Put::Link("dead.script"),
        "dead",
        Err(MountFault::Fault),
        &[],
    ),
];

// How many of these files are there.
fn count(rt: &HostRuntime, folder: &str, names: &[&str]) -> Result<u32, Fail> {
    let mut found = 0u32;
    for name in names {
        let path = format!(in rt.alloc(); "{folder}/{name}")?;
        found = found.saturating_add(u32::from(fs::exists(rt, path.as_str())?));
    }
    Ok(found)
}

#[test]
fn leaves_other_files_alone(rt: HostRuntime) -> Result<(), Fail> {
    let folder = make_folder(&rt, "other")?;
    for (what, name, answer, absent) in &CASES {
        prepare(&rt, folder.as_str(), what)?;
        assert_eq!(rt; mounted(&rt, folder.as_str(), name)?, *answer, "at {name}");
        assert_eq!(rt; count(&rt, folder.as_str(), absent)?, 0, "at {name}");
    }
    let path = format!(in rt.alloc(); "{folder}/a.properties")?;
    assert!(rt; fs::read(&rt, path.as_str())?.as_slice() == b"version=2".as_slice());
    fs::remove_dir_all(&rt, folder.as_str())?;
    Ok(())
}
