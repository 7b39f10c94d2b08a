// What goes out of a run.
ghost use Rattle.std.specs.Prelude.{◌≡◌, ◌≤◌, ◌++◌, [], length, take, IsErrOf, MatchResult, OnOk, OnErr};
ghost use Rattle.hs_host.specs.declared.file_kind.FileKind.TheVariants as FileKind;
ghost use Rattle.hs_host.specs.Moments.{Since};
ghost use Rattle.hs_host.specs.Used.{Moves, Told, UsesOutput};
ghost use Rattle.hs_log.specs.Log.{IsLog, epoch_in};
ghost use Rattle.hs_run.specs.Crash.{texts_in};
ghost use Rattle.hs_run.specs.Holding.{IsHandedOver, WritesPrefix};
ghost use Rattle.hs_run.specs.Outgoing.{HandsOn, IsEmpty, failing, IsLogging, IsServing, marked};
ghost use Rattle.hs_run.specs.Prompt.{AsksNothing};
ghost use Rattle.hs_run.specs.Stop.{DiskStops, NoFaults, RunStops};

use crate::flush::flush;
use crate::gathered::Gathered;
use crate::stop::Stop;
use hs_host::Host;
use hs_log::Log;

/// How many bytes of output are gathered before they are handed over.
const MOST_TOLD: usize = 65_536;

/// How many bytes the texts of commits have at most that are gathered before they are logged.
const MOST_MADE: u64 = 0x10_0000;

/// How many bytes of a group stand before its text.
const HEAD_BYTES: u64 = 9;

/// What goes out of a run: what is gathered, how many bytes of it tell of nothing that isn't logged, and the log.
#[derive(Drop)]
pub struct Outgoing {
    pub gathered: Gathered,
    pub standing: usize,
    pub log: Log,
}

impl Outgoing {
    /// All that is gathered stands, where no commit is to be logged.
    pub fn mark(&mut self)
        ensures { self.new ≡ marked self.old }
    {
        if self.gathered.made.is_empty() {
            self.standing = self.gathered.told.len();
        }
    }

    // Logs the commits that are gathered.
    fn log_made<H: Host>(&mut self, host: &mut H) -> Result<(), Stop>
        requires serving { IsServing H.Source H.Host.own self.old host.old }
        ensures moves { Moves H.Source H.Host.own FileKind.Log (IsLogging (H.history host.old).now (texts_in (H.files host.old)) self.old.gathered.made) host.old host.new }
        ensures log { Told H.Source H.Host.own host.old → OnOk result (IsLog (H.history host.new) (H.files host.new) self.new.log) }
        ensures epoch { epoch_in self.new.log ≡ 1 }
        ensures texts { Told H.Source H.Host.own host.old → OnOk result (texts_in (H.files host.new) ≡ texts_in (H.files host.old) ++ self.old.gathered.made) }
        ensures made { OnOk result (self.new.gathered.made ≡ []) }
        ensures told { self.new.gathered.told ≡ self.old.gathered.told }
        ensures standing { OnErr result (self.new.standing ≡ self.old.standing) }
        ensures stops { MatchResult result (λ _. NoFaults H.Source H.Host.own host.old host.new) (DiskStops H.Source H.Host.own host.old host.new) }
    {
        if self.gathered.made.is_empty() {
            return Ok(());
        }
        self.log
            .commit_all(host, self.gathered.session, &self.gathered.made)?;
        self.gathered.made.clear();
        Ok(())
    }

    /// Logs the commits that are gathered, and then hands over what is told. Where they can't be logged, what stands already
    /// is handed over, as far as the host takes it.
    pub fn hand_over<H: Host>(&mut self, host: &mut H) -> Result<(), Stop>
        requires serving { IsServing H.Source H.Host.own self.old host.old }
        ensures hands { HandsOn H.Source H.Host.own self.old host.old self.new host.new result }
        ensures unasked { AsksNothing H.Source H.Host.own host.old host.new }
        ensures unread { H.unread host.new ≡ H.unread host.old }
        ensures done { H.tells → OnOk result (H.written host.new ≡ H.written host.old ++ self.old.gathered.told) }
        ensures empty { OnOk result (IsEmpty self.new.gathered) }
        ensures short { IsErrOf result Stop.TooLong → ⊥ }
    {
        if let Err(stop) = self.log_made(host) {
            return Err(self.hand_over_standing(stop, host));
        }
        self.standing = 0;
        flush(&mut self.gathered.told, host)
    }

    // Hands over what stands before a run ends, as far as the host takes it, and answers why the run ends: where memory was
    // wanted and now the output fails, that fault is told.
    fn hand_over_standing<H: Host>(&mut self, stop: Stop, host: &mut H) -> Stop
        requires { self.old.standing ≤ length self.old.gathered.told }
        ensures front { H.tells → WritesPrefix (H.written host.old) (H.written host.new) (take self.old.standing self.old.gathered.told) }
        ensures moments { H.tells → Since (IsHandedOver (H.history host.old).now (take self.old.standing self.old.gathered.told)) (H.history host.old) (H.history host.new) }
        ensures unasked { AsksNothing H.Source H.Host.own host.old host.new }
        ensures uses { UsesOutput H.Source H.Host.own host.old host.new }
        ensures short { (first : H) → DiskStops H.Source H.Host.own first host.old stop → result ≡ Stop.TooLong → ⊥ }
        ensures stops { (first : H) → DiskStops H.Source H.Host.own first host.old stop → RunStops H.Source H.Host.own first host.new result }
    {
        self.gathered.told.truncate(self.standing);
        let handed = flush(&mut self.gathered.told, host);
        match stop {
            Stop::NoMemory => match handed {
                Ok(()) => Stop::NoMemory,
                Err(fault) => fault,
            },
            _ => stop,
        }
    }

    // Whether the texts of the commits that are gathered have more bytes than may be kept.
    fn is_full(&self) -> bool {
        let made = &self.gathered.made;
        let heads = made.count().saturating_mul(HEAD_BYTES);
        made.spelled().len() as u64 > MOST_MADE.saturating_add(heads)
    }

    /// Hands over what is gathered, where it is 64 KiB or more, or the texts of the commits behind it are more than 2^20 bytes.
    pub fn hand_over_when_large<H: Host>(&mut self, host: &mut H) -> Result<(), Stop>
        requires serving { IsServing H.Source H.Host.own self.old host.old }
        ensures short { IsErrOf result Stop.TooLong → ⊥ }
        ensures hands { HandsOn H.Source H.Host.own self.old host.old self.new host.new result }
        ensures unasked { AsksNothing H.Source H.Host.own host.old host.new }
        ensures unread { H.unread host.new ≡ H.unread host.old }
    {
        if self.gathered.told.len() < MOST_TOLD && !self.is_full() {
            return Ok(());
        }
        self.hand_over(host)
    }

    /// Hands over what is gathered before a run ends for want of memory, and answers why it ends.
    pub fn wanting<H: Host>(&mut self, host: &mut H) -> Stop
        requires serving { IsServing H.Source H.Host.own self.old host.old }
        ensures short { result ≡ Stop.TooLong → ⊥ }
        ensures hands { HandsOn H.Source H.Host.own self.old host.old self.new host.new (failing result) }
        ensures unasked { AsksNothing H.Source H.Host.own host.old host.new }
        ensures unread { H.unread host.new ≡ H.unread host.old }
    {
        match self.hand_over(host) {
            Ok(()) => Stop::NoMemory,
            Err(stop) => stop,
        }
    }

    /// Hands over what is gathered before a run ends where its input is too long, and answers why it ends.
    pub fn cut<H: Host>(&mut self, host: &mut H) -> Stop
        requires serving { IsServing H.Source H.Host.own self.old host.old }
        ensures hands { HandsOn H.Source H.Host.own self.old host.old self.new host.new (failing result) }
        ensures unasked { AsksNothing H.Source H.Host.own host.old host.new }
        ensures unread { H.unread host.new ≡ H.unread host.old }
        ensures done { H.tells → result ≡ Stop.TooLong → H.written host.new ≡ H.written host.old ++ self.old.gathered.told }
    {
        match self.hand_over(host) {
            Ok(()) => Stop::TooLong,
            Err(stop) => stop,
        }
    }
}
