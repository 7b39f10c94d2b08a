// Each moment of the calls, with each way of filling what is uncertain.
ghost use Rattle.std.specs.Prelude.{◌≡◌, true};

use crate::tests::reading::reading;
use crate::tests::texts::Texts;
use crate::tests::torn::{Fill, TornHost};
use hs_checkpoint::{checkpoint, restart, sync_all};
use hs_gate::{GateFault, Gated};
use hs_host::FileKind;
use hs_slots::Files;
use std::alloc::{AllocError, Global};
use std::test::Fail;

pub const FILLS: [Fill; 3] = [Fill::Old, Fill::New, Fill::Ones];

// What files stand for before and after the first of two checkpoints, and after the second.
const CHECKPOINTS: &str = "\
slot 0 epoch 1 base a| logged x| images ;\
slot 1 epoch 2 base b|cc| logged  images ;\
slot 0 epoch 3 base d| logged  images ;";

// What files stand for whose log and backup are of an older epoch.
const OLDER: &str = "slot 0 epoch 3 base a| logged  images ;";

// A gated file with this header, and with this group if there is one.
pub fn gated(
    alloc: Global,
    birth: u8,
    gate: u8,
    epoch: u8,
    group: Option<&str>,
) -> Result<Vec<u8>, AllocError> {
    let mut bytes = [birth, gate, 0, 0, 0, 0, 0, 0, 0, epoch].to_vec(alloc)?;
    if let Some(text) = group {
        bytes.push(1)?;
        bytes.extend_from_slice(&(text.len() as u64).to_be_bytes())?;
        bytes.extend_from_slice(text.as_bytes())?;
    }
    bytes.push(0)?;
    Ok(bytes)
}

// Five files of which the first slot is the current one.
fn five(alloc: Global, slot: u8, others: u8) -> Result<Vec<Vec<u8>>, AllocError> {
    let mut files = Vec::new(alloc);
    files.push(gated(alloc, 0, 1, slot, Some("a"))?)?;
    files.push([0, 0].to_vec(alloc)?)?;
    files.push(gated(alloc, 1, 1, others, Some("x"))?)?;
    files.push(Vec::new(alloc))?;
    files.push(gated(alloc, 1, 1, others, None)?)?;
    Ok(files)
}

// Adds what is left to what was shown, where it is other than what was added last.
pub fn show(
    shown: &mut String,
    last: &mut String,
    alloc: Global,
    host: &TornHost,
) -> Result<(), AllocError> {
    let left = host.left(alloc)?;
    let now = reading(alloc, left.as_slice())?;
    if now.as_str() != last.as_str() {
        shown.push_str(now.as_str())?;
        shown.push_str(";")?;
        *last = now;
    }
    Ok(())
}

// Two checkpoints of other groups, the first given byte by byte.
fn make_two(alloc: Global, host: &mut TornHost) -> Result<(), GateFault>
    requires { host.old.is_open ≡ true }
{
    let log = Gated {
        file: FileKind::Log,
        epoch: 1,
        groups: 1,
        end: 20,
    };
    let backup = Gated {
        file: FileKind::Backup,
        epoch: 1,
        groups: 0,
        end: 10,
    };
    let mut files = Files {
        log,
        backup,
        slot: FileKind::Script0,
        epoch: 1,
    };
    let mut first = Texts::new(alloc, &["b", "cc"], 1)?;
    checkpoint(alloc, host, &mut files, &mut first)?;
    let mut second = Texts::new(alloc, &["d"], 64)?;
    checkpoint(alloc, host, &mut files, &mut second)
}

// What a log and a backup need that don't count.
fn start_both(host: &mut TornHost) -> Result<(), GateFault>
    requires { host.old.is_open ≡ true }
{
    sync_all(host)?;
    restart(host, FileKind::Backup, 3)?;
    restart(host, FileKind::Log, 3)?;
    Ok(())
}

// What files stand for after a crash at each call of two checkpoints in turn.
fn two_checkpoints(alloc: Global, fill: Fill) -> Result<String, AllocError> {
    let files = five(alloc, 1, 1)?;
    let mut shown = String::new(alloc);
    let mut last = String::new(alloc);
    for crash in 0..200_u64 {
        let mut host = TornHost::new(alloc, files.as_slice(), crash, fill)?;
        let outcome = make_two(alloc, &mut host);
        show(&mut shown, &mut last, alloc, &host)?;
        if outcome.is_ok() {
            break;
        }
    }
    Ok(shown)
}

// The same while a log and a backup of an older epoch are started.
fn starts(alloc: Global, fill: Fill) -> Result<String, AllocError> {
    let files = five(alloc, 3, 2)?;
    let mut shown = String::new(alloc);
    let mut last = String::new(alloc);
    for crash in 0..200_u64 {
        let mut host = TornHost::new(alloc, files.as_slice(), crash, fill)?;
        let outcome = start_both(&mut host);
        show(&mut shown, &mut last, alloc, &host)?;
        if outcome.is_ok() {
            break;
        }
    }
    Ok(shown)
}

#[test]
fn checkpoints_at_each_moment(rt: HostRuntime) -> Result<(), Fail> {
    for fill in FILLS {
        assert_eq!(rt; two_checkpoints(rt.alloc(), fill)?.as_str(), CHECKPOINTS);
    }
    Ok(())
}

#[test]
fn starts_at_each_moment(rt: HostRuntime) -> Result<(), Fail> {
    for fill in FILLS {
        assert_eq!(rt; starts(rt.alloc(), fill)?.as_str(), OLDER);
    }
    Ok(())
}
