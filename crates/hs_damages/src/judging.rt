// Groups that are read one after another and judged.
ghost use Rattle.std.specs.Prelude.{◌≡◌, ◌<◌, [], true, IfOk, OnOk};
ghost use Rattle.hs_host.specs.Files.{of, IsOpen};
ghost use Rattle.hs_host.specs.Used.{Told, ReadsFiles};
ghost use Rattle.hs_gate.specs.Gated.{gated_of};
ghost use Rattle.hs_gate.specs.Groups.{is_open, groups_of};
ghost use Rattle.hs_gate.specs.Reading.{IsReady, HasBegun, IsReadTo};
ghost use Rattle.hs_damages.specs.Damages.{damage_in, judged_groups, judged_counted, counting};
ghost use Rattle.hs_damages.specs.Meaning.{of_part};
ghost use Rattle.hs_damages.specs.Reading.{IsJudging, IsUndamaged, Goes, Judges, Takes, Ends, place_in};
ghost use Rattle.hs_damages.specs.Sighting.{open_epoch, is_of};
ghost use Rattle.hs_damages.specs.Stops.{HasCause, stop_at};

use crate::damage::{Damage, Stop};
use crate::judge::Judge;
use crate::part::Part;
use hs_gate::{GateFault, Gated, GroupReader};
use hs_host::{FileKind, Host};
use std::alloc::Global;

// A group of a part isn't as it should be.
fn damage_in(part: Part, group: u64) -> Damage
    ensures { result ≡ damage_in part group }
{
    match part {
        Part::Checkpoint => Damage::Script(group),
        Part::Images => Damage::Backup(group),
        Part::Commits => Damage::Log(group),
    }
}

// Why a file of a part wasn't read on.
fn stop_at(part: Part, fault: GateFault) -> Stop
    ensures { result ≡ stop_at part fault }
{
    match fault {
        GateFault::Broken(group) => Stop::Damaged(damage_in(part, group)),
        GateFault::Disk => Stop::Disk,
        GateFault::NoMemory => Stop::NoMemory,
    }
}

// Has the payload that was read last judged. It answers that there was one.
fn judge_payload<J: Judge>(reader: &GroupReader, part: Part, judge: &mut J) -> Result<bool, Stop>
    requires { IsReady reader.now }
    ensures { Takes J.meaning part reader.now (J.taken judge.old) (J.taken judge.new) result }
{
    if judge.take(part, reader.payload())? {
        return Ok(true);
    }
    Err(Stop::Damaged(damage_in(part, reader.gated().groups)))
}

// Has the end of a part judged. It answers that there is no payload more.
fn judge_end<J: Judge>(reader: &GroupReader, part: Part, judge: &mut J) -> Result<bool, Stop>
    requires { IsReady reader.now }
    ensures { Ends J.meaning part reader.now (J.taken judge.old) (J.taken judge.new) result }
{
    if judge.end(part)? {
        return Ok(false);
    }
    Err(Stop::Damaged(damage_in(part, reader.gated().groups + 1)))
}

// Reads the next group of a file and has it judged, or the end of the groups. It answers whether there was a group.
fn judge_next<H: Host, J: Judge>(
    host: &mut H,
    reader: &mut GroupReader,
    part: Part,
    judge: &mut J,
) -> Result<bool, Stop>
    requires opened { IsOpen (H.standing host.old) }
    requires ready { IsReady reader.old }
    requires judging { Told H.Source H.Host.own host.old → IsJudging part (J.taken judge.old) (of (H.files host.old) reader.old.file) reader.old }
    ensures ready { OnOk result (IsReady reader.new) }
    ensures same { OnOk result ((reader.new.file ≡ reader.old.file) × (reader.new.total ≡ reader.old.total)) }
    ensures judging { Told H.Source H.Host.own host.old → IfOk result (λ more. more ≡ true → IsJudging part (J.taken judge.new) (of (H.files host.old) reader.old.file) reader.new) }
    ensures counted { IfOk result (λ more. more ≡ true → place_in reader.old < place_in reader.new) }
    ensures goes { Told H.Source H.Host.own host.old → Goes J.meaning part (of (H.files host.old) reader.old.file) (J.taken judge.old) reader.old (J.taken judge.new) reader.new result }
    ensures reads { ReadsFiles H.Source H.Host.own host.old host.new }
    ensures cause { HasCause (H.disk_faults host.old) (H.disk_faults host.new) result }
{
    let more = match reader.advance(host) {
        Ok(more) => more,
        Err(fault) => return Err(stop_at(part, fault)),
    };
    if more {
        judge_payload(reader, part, judge)
    } else {
        judge_end(reader, part, judge)
    }
}

// Begins to read a file that is open.
fn open_groups<H: Host>(
    alloc: Global,
    host: &mut H,
    file: FileKind,
    part: Part,
) -> Result<GroupReader, Stop>
    requires opened { IsOpen (H.standing host.old) }
    requires file { Told H.Source H.Host.own host.old → is_open (of (H.files host.old) file) ≡ true }
    ensures begun { IfOk result (HasBegun file) }
    ensures ready { IfOk result IsReady }
    ensures read { Told H.Source H.Host.own host.old → IfOk result (IsReadTo (of (H.files host.old) file)) }
    ensures whole { Told H.Source H.Host.own host.old → IsUndamaged result }
    ensures reads { ReadsFiles H.Source H.Host.own host.old host.new }
    ensures cause { HasCause (H.disk_faults host.old) (H.disk_faults host.new) result }
{
    match GroupReader::open(alloc, host, file) {
        Ok(Some(reader)) => Ok(reader),
        Ok(None) => Err(Stop::Damaged(damage_in(part, 1))),
        Err(fault) => Err(stop_at(part, fault)),
    }
}

/// Reads the groups of an open file to their end and has each judged, where none was taken of the part before.
///
/// `Damaged` comes exactly where a group is broken, may not stand where it does or is missing. `Disk` comes only where a call of the
/// host failed, and `NoMemory` is free.
pub fn judge_groups<H: Host, J: Judge>(
    alloc: Global,
    host: &mut H,
    file: FileKind,
    part: Part,
    judge: &mut J,
) -> Result<Gated, Stop>
    requires opened { IsOpen (H.standing host.old) }
    requires file { Told H.Source H.Host.own host.old → is_open (of (H.files host.old) file) ≡ true }
    requires none { Told H.Source H.Host.own host.old → of_part (J.taken judge.old) part ≡ [] }
    ensures judged { Told H.Source H.Host.own host.old → Judges (judged_groups J.meaning part (J.taken judge.old) (groups_of (of (H.files host.old) file))) (J.taken judge.new) result }
    ensures gated { Told H.Source H.Host.own host.old → IfOk result (λ gated. gated ≡ gated_of file (of (H.files host.old) file) (groups_of (of (H.files host.old) file)).payloads) }
    ensures reads { ReadsFiles H.Source H.Host.own host.old host.new }
    ensures cause { HasCause (H.disk_faults host.old) (H.disk_faults host.new) result }
{
    let mut reader = open_groups(alloc, host, file, part)?;
    'groups: while judge_next(host, &mut reader, part, judge)? {}
    Ok(reader.gated())
}

/// The same of a log or a backup, where it counts: it is open with this epoch. Where it doesn't, nothing is taken of it, and the answer
/// is none. `found` is its
/// epoch where it is open.
pub fn judge_counted<H: Host, J: Judge>(
    alloc: Global,
    host: &mut H,
    file: FileKind,
    found: Option<u64>,
    epoch: u64,
    part: Part,
    judge: &mut J,
) -> Result<Option<Gated>, Stop>
    requires opened { IsOpen (H.standing host.old) }
    requires header { Told H.Source H.Host.own host.old → found ≡ open_epoch (of (H.files host.old) file) }
    requires none { Told H.Source H.Host.own host.old → of_part (J.taken judge.old) part ≡ [] }
    ensures judged { Told H.Source H.Host.own host.old → Judges (judged_counted J.meaning epoch part (J.taken judge.old) (of (H.files host.old) file)) (J.taken judge.new) result }
    ensures gated { Told H.Source H.Host.own host.old → IfOk result (λ gated. gated ≡ counting file epoch (of (H.files host.old) file)) }
    ensures reads { ReadsFiles H.Source H.Host.own host.old host.new }
    ensures cause { HasCause (H.disk_faults host.old) (H.disk_faults host.new) result }
{
    if !is_of(found, epoch) {
        return Ok(None);
    }
    let gated = judge_groups(alloc, host, file, part, judge)?;
    Ok(Some(gated))
}

// A file is open with this epoch.
fn is_of(found: Option<u64>, epoch: u64) -> bool
    ensures { result ≡ is_of found epoch }
{
    match found {
        Some(other) => other == epoch,
        None => false,
    }
}
