// Files that are examined as a whole.
ghost use Rattle.std.specs.Prelude.{◌≡◌, true, Ok, IfOk, IfSome};
ghost use Rattle.hs_host.specs.Files.{of, IsOpen};
ghost use Rattle.hs_host.specs.Used.{Told, ReadsFiles};
ghost use Rattle.hs_gate.specs.Groups.{is_open};
ghost use Rattle.hs_damages.specs.Damages.{all_judged, reading_of, sight_of};
ghost use Rattle.hs_damages.specs.Meaning.{nothing};
ghost use Rattle.hs_damages.specs.Reading.{Judges};
ghost use Rattle.hs_damages.specs.Sighting.{headers_of};
ghost use Rattle.hs_damages.specs.Stops.{HasCause, Answers};

use crate::damage::Stop;
use crate::headers::{Current, Headers};
use crate::judge::Judge;
use crate::judging::{judge_counted, judge_groups};
use crate::part::Part;
use hs_gate::Gated;
use hs_host::{FileKind, Host};
use std::alloc::Global;

/// What the files of a database are read as.
#[derive(Clone, Copy, Debug, PartialEq, Eq)]
pub struct Sight {
    /// The current slot.
    pub current: Current,
    /// The log, where it counts.
    pub log: Option<Gated>,
    /// The backup, where it counts.
    pub backup: Option<Gated>,
}

/// Reads the five files of a database. The judge takes the payloads of the current slot, then those of a backup that counts and
/// then those of a log that counts, each until one may not stand there.
///
/// It answers none exactly where log and backup aren't both born and no file is missing beside another, so that the files stand for
/// nothing as yet. `Damaged` comes exactly where the files are damaged, and it is the first damage. `Disk` comes
/// only where a call of the host failed, and `NoMemory` is free.
pub fn examine<H: Host, J: Judge>(
    alloc: Global,
    host: &mut H,
    judge: &mut J,
) -> Result<Option<Sight>, Stop>
    requires opened { IsOpen (H.standing host.old) }
    requires fresh { J.taken judge.old ≡ nothing }
    ensures reading { Told H.Source H.Host.own host.old → Answers (reading_of J.meaning (H.files host.old)) result }
    ensures taken { Told H.Source H.Host.own host.old → IfOk result (λ sight. IfSome sight (λ s. all_judged J.meaning s.current (H.files host.old) ≡ Ok (J.taken judge.new))) }
    ensures reads { ReadsFiles H.Source H.Host.own host.old host.new }
    ensures cause { HasCause (H.disk_faults host.old) (H.disk_faults host.new) result }
{
    let headers = Headers::read(host)?;
    match headers.sight() {
        Ok(Some(current)) => {
            let sight = examine_born(alloc, host, &headers, current, judge)?;
            Ok(Some(sight))
        }
        Ok(None) => Ok(None),
        Err(damage) => Err(Stop::Damaged(damage)),
    }
}

// The same of files whose headers show no damage, with this slot as the current one.
fn examine_born<H: Host, J: Judge>(
    alloc: Global,
    host: &mut H,
    headers: &Headers,
    current: Current,
    judge: &mut J,
) -> Result<Sight, Stop>
    requires opened { IsOpen (H.standing host.old) }
    requires fresh { J.taken judge.old ≡ nothing }
    requires headers { Told H.Source H.Host.own host.old → headers.now ≡ headers_of (H.files host.old) }
    requires slot { Told H.Source H.Host.own host.old → is_open (of (H.files host.old) current.slot) ≡ true }
    ensures judged { Told H.Source H.Host.own host.old → Judges (all_judged J.meaning current (H.files host.old)) (J.taken judge.new) result }
    ensures sight { Told H.Source H.Host.own host.old → IfOk result (λ sight. sight ≡ sight_of current (H.files host.old)) }
    ensures reads { ReadsFiles H.Source H.Host.own host.old host.new }
    ensures cause { HasCause (H.disk_faults host.old) (H.disk_faults host.new) result }
{
    judge_groups(alloc, host, current.slot, Part::Checkpoint, judge)?;
    let backup = judge_counted(
        alloc,
        host,
        FileKind::Backup,
        headers.backup.epoch,
        current.epoch,
        Part::Images,
        judge,
    )?;
    let log = judge_counted(
        alloc,
        host,
        FileKind::Log,
        headers.log.epoch,
        current.epoch,
        Part::Commits,
        judge,
    )?;
    Ok(Sight {
        current,
        log,
        backup,
    })
}
