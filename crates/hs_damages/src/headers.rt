// The headers of five files, and which slot is the current one.
ghost use Rattle.std.specs.Prelude.{◌≡◌, IfOk};
ghost use Rattle.hs_host.specs.Files.{IsOpen};
ghost use Rattle.hs_host.specs.Used.{Told, ReadsFiles};
ghost use Rattle.hs_damages.specs.Sighting.{headers_of, has_behind_backup, has_behind_log, are_born, are_headed, current_of, is_newer, sighted, sighted_with};
ghost use Rattle.hs_damages.specs.Stops.{FailsWith};

use crate::damage::{Damage, Stop};
use crate::header::Header;
use hs_host::{FileKind, Host, len};

/// The slot that is the current one.
#[derive(Clone, Copy, Debug, PartialEq, Eq)]
pub struct Current {
    /// The file of the slot.
    pub slot: FileKind,
    /// Its epoch.
    pub epoch: u64,
}

/// What the headers of five files show.
#[derive(Clone, Copy, Debug, PartialEq, Eq)]
pub struct Headers {
    /// The first slot.
    pub script0: Header,
    /// The second slot.
    pub script1: Header,
    /// The log.
    pub log: Header,
    /// The backup.
    pub backup: Header,
    /// Something stands in the page file.
    pub has_pages: bool,
}

impl Headers {
    /// Reads the headers of the five files.
    ///
    /// `Disk` comes only where a call of the host failed, and `NoMemory` is handed on from the host.
    pub fn read<H: Host>(host: &mut H) -> Result<Headers, Stop>
        requires { IsOpen (H.standing host.old) }
        ensures headers { Told H.Source H.Host.own host.old → IfOk result (λ headers. headers ≡ headers_of (H.files host.old)) }
        ensures reads { ReadsFiles H.Source H.Host.own host.old host.new }
        ensures fails { FailsWith (H.disk_faults host.old) (H.disk_faults host.new) result }
    {
        let script0 = Header::read(host, FileKind::Script0)?;
        let script1 = Header::read(host, FileKind::Script1)?;
        let log = Header::read(host, FileKind::Log)?;
        let backup = Header::read(host, FileKind::Backup)?;
        let pages = len(host, FileKind::Data)?;
        Ok(Headers {
            script0,
            script1,
            log,
            backup,
            has_pages: pages > 0,
        })
    }

    /// The current slot, or none where log and backup aren't both born. An `Err` is the first damage of the headers.
    pub fn sight(&self) -> Result<Option<Current>, Damage>
        ensures { result ≡ sighted self.now }
    {
        if !self.log.is_there && self.has_behind_log() {
            return Err(Damage::Log(0));
        }
        if !self.backup.is_there && self.has_behind_backup() {
            return Err(Damage::Backup(0));
        }
        if !(self.log.is_born && self.backup.is_born) {
            return Ok(None);
        }
        if !self.are_headed() {
            return Err(Damage::NoScript);
        }
        self.sight_with(current_of(self.script0.epoch, self.script1.epoch))
    }

    fn has_behind_backup(&self) -> bool
        ensures { result ≡ has_behind_backup self.now }
    {
        self.script0.is_there || self.script1.is_there || self.has_pages
    }

    fn has_behind_log(&self) -> bool
        ensures { result ≡ has_behind_log self.now }
    {
        self.has_behind_backup() || self.backup.is_there
    }

    fn are_headed(&self) -> bool
        ensures { result ≡ are_headed self.now }
    {
        self.script0.is_headed
            && self.script1.is_headed
            && self.log.is_headed
            && self.backup.is_headed
    }

    // What is shown with this slot as the current one.
    fn sight_with(&self, current: Option<Current>) -> Result<Option<Current>, Damage>
        ensures { result ≡ sighted_with self.now current }
    {
        let Some(slot) = current else {
            return Err(Damage::NoScript);
        };
        if is_newer(self.log.epoch, slot.epoch) || is_newer(self.backup.epoch, slot.epoch) {
            return Err(Damage::NoScript);
        }
        Ok(Some(slot))
    }
}

// The current one of two slots, of which these are the epochs where they are open.
fn current_of(first: Option<u64>, second: Option<u64>) -> Option<Current>
    ensures { result ≡ current_of first second }
{
    match (first, second) {
        (None, None) => None,
        (Some(epoch), None) => Some(first_slot(epoch)),
        (None, Some(epoch)) => Some(second_slot(epoch)),
        (Some(one), Some(other)) => {
            if one == other {
                None
            } else if one < other {
                Some(second_slot(other))
            } else {
                Some(first_slot(one))
            }
        }
    }
}

fn first_slot(epoch: u64) -> Current
    ensures { result ≡ record { slot = FileKind.Script0; epoch = epoch } }
{
    Current {
        slot: FileKind::Script0,
        epoch,
    }
}

fn second_slot(epoch: u64) -> Current
    ensures { result ≡ record { slot = FileKind.Script1; epoch = epoch } }
{
    Current {
        slot: FileKind::Script1,
        epoch,
    }
}

// A file is open with a greater epoch.
fn is_newer(found: Option<u64>, epoch: u64) -> bool
    ensures { result ≡ is_newer found epoch }
{
    match found {
        Some(other) => epoch < other,
        None => false,
    }
}
