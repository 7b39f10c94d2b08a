// Reads the texts of a born log one after another.
ghost use Rattle.std.specs.Prelude.{◌≡◌, ℕ, ◌+◌, true, false, IfOk, OnOk, OnErr, IsErrOf};
ghost use Rattle.hs_host.specs.Disk.{settled};
ghost use Rattle.hs_host.specs.Files.{IsOpen};
ghost use Rattle.hs_host.specs.Moments.{disk_of};
ghost use Rattle.hs_host.specs.Used.{Told, ReadsFiles, ChangesFile};
ghost use Rattle.hs_log.specs.Faults.{HasLogCause, FailsWith};
ghost use Rattle.hs_log.specs.Log.{IsLog, IsSameLog, HasRoom, is_born, is_broken, texts_of, epoch_in, last_in};

use crate::log::Log;
use crate::log_fault::LogFault;
use hs_gate::GroupReader;
use hs_host::{FileKind, Host};
use std::alloc::Global;

/// Reads the texts of a born log one after another, each from a window on the file, from which it is lent.
#[derive(Drop)]
pub struct LogReader {
    groups: GroupReader,
}

impl LogReader {
    ghost use Rattle.hs_log.specs.LogReading.{IsReading, IsBegun, GoesOn, TakesText, IsBrokenHere, IsHeaderDamage, text_in, count_in, left_in};
    ghost use Rattle.hs_gate.specs.Reading.{IsReady};

    // Begins to read a born log.
    pub(crate) fn begin<H: Host>(alloc: Global, host: &mut H) -> Result<LogReader, LogFault>
        requires opened { IsOpen (H.standing host.old) }
        requires born { Told H.Source H.Host.own host.old → is_born (H.files host.old).log ≡ true }
        ensures begun { IfOk result (IsBegun H.Source H.Host.own host.old host.new) }
        ensures broken { Told H.Source H.Host.own host.old → (number : ℕ) → IsErrOf result (LogFault.Broken number) → IsHeaderDamage number (H.files host.old).log }
        ensures reads { ReadsFiles H.Source H.Host.own host.old host.new }
        ensures cause { HasLogCause (H.disk_faults host.old) (H.disk_faults host.new) result }
    {
        let Some(groups) = GroupReader::open(alloc, host, FileKind::Log)? else {
            return Err(LogFault::Broken(0));
        };
        if groups.gated().epoch != 1 {
            return Err(LogFault::Broken(0));
        }
        Ok(LogReader { groups })
    }

    /// Reads the next text, and answers whether there was one.
    ///
    /// `Broken(n)` comes exactly where text n, counted from 1, isn't whole and those before it are. `Disk` comes only where a
    /// call of the host failed, and `NoMemory` is free. After an `Err` nothing is said of this.
    pub fn advance<H: Host>(&mut self, host: &mut H) -> Result<bool, LogFault>
        requires reading { IsReading H.Source H.Host.own self.old host.old }
        ensures reading { OnOk result (IsReading H.Source H.Host.own self.new host.new) }
        ensures goes_on { IfOk result (λ more. GoesOn self.old more self.new) }
        ensures takes { Told H.Source H.Host.own host.old → IfOk result (λ more. TakesText (H.files host.old).log self.old more self.new) }
        ensures number { (number : ℕ) → IsErrOf result (LogFault.Broken number) → number ≡ count_in self.old + 1 }
        ensures broken { Told H.Source H.Host.own host.old → (number : ℕ) → IsErrOf result (LogFault.Broken number) → IsBrokenHere (H.files host.old).log self.old }
        ensures reads { ReadsFiles H.Source H.Host.own host.old host.new }
        ensures cause { HasLogCause (H.disk_faults host.old) (H.disk_faults host.new) result }
    {
        Ok(self.groups.advance(host)?)
    }

    /// The text that was read last. It is empty where none was read yet, and where none was left.
    pub fn text(&self) -> &[u8]
        requires { IsReady self.now.groups }
        ensures { result.now ≡ text_in self.now }
    {
        self.groups.payload()
    }

    /// Brings a log whose texts were read to the disk, cuts off what stands behind them, and keeps it from then on. Its last
    /// text is of this session, and none where it has no text.
    ///
    /// Where it was all on the disk, what a crash leaves at each moment on the way is read as the log was. After an `Ok` it
    /// stands there, and nothing stands behind its texts.
    ///
    /// `Disk` comes only where a call of the host failed. `NoMemory` is handed on from the host, and comes
    /// where the places don't fit in 64 bits.
    pub fn settle<H: Host>(self, host: &mut H, last: Option<u32>) -> Result<Log, LogFault>
        requires reading { IsReading H.Source H.Host.own self host.old }
        requires whole { Told H.Source H.Host.own host.old → TakesText (H.files host.old).log self false self }
        ensures log { Told H.Source H.Host.own host.old → IfOk result (IsLog (H.history host.new) (H.files host.new)) }
        ensures epoch { IfOk result (λ log. epoch_in log ≡ 1) }
        ensures last { IfOk result (λ log. last_in log ≡ last) }
        ensures room { IfOk result (HasRoom (count_in self)) }
        ensures texts { Told H.Source H.Host.own host.old → OnOk result (texts_of (H.files host.new).log ≡ texts_of (H.files host.old).log) }
        ensures changes { ChangesFile H.Source H.Host.own FileKind.Log (λ left. disk_of (H.history host.old).now FileKind.Log ≡ settled (H.files host.old).log → IsSameLog (H.files host.old).log left) host.old host.new }
        ensures err { Told H.Source H.Host.own host.old → OnErr result (H.files host.new ≡ H.files host.old) }
        ensures fails { FailsWith (H.disk_faults host.old) (H.disk_faults host.new) result }
    {
        let gated = self.groups.gated();
        gated.settle(host)?;
        Ok(Log { gated, last })
    }
}
