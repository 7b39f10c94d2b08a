// The log, as it is kept.
ghost use Rattle.std.specs.Prelude.{◌≡◌, ℕ, ◌+◌, ◌<◌, [], ◌∷◌, ◌++◌, length, true, false, Some, IfOk, OnOk, OnErr, IsErrOf};
ghost use Rattle.hs_host.specs.Files.{IsOpen};
ghost use Rattle.hs_host.specs.Used.{Told, Moves, ChangesFile};
ghost use Rattle.hs_gate.specs.Crash.{IsAny};
ghost use Rattle.hs_log.specs.Faults.{HasLogCause, FailsWith};
ghost use Rattle.hs_log.specs.LogReading.{Opens, IsNew, IsHeaderDamage};

use crate::log_fault::LogFault;
use crate::log_reader::LogReader;
use hs_gate::{Batch, Gated};
use hs_host::{FileKind, Host};
use hs_values::Bytes;
use std::alloc::Global;

/// The log, as it is kept: its file, and the session of its last text.
#[derive(Drop)]
pub struct Log {
    pub(crate) gated: Gated,
    pub(crate) last: Option<u32>,
}

/// A log that was opened.
#[derive(Drop)]
pub enum OpenedLog {
    /// It wasn't born, and was made anew, without texts.
    New(Log),
    /// It was born, and its texts are to be read.
    Born(LogReader),
}

impl Log {
    ghost use Rattle.hs_log.specs.Log.{IsLog, IsOpening, IsUnbornOrNew, HasRoom, HasNoneOrAll, is_born, texts_of, epoch_in, last_in, size_in};

    /// Opens the log. One that isn't born is made anew, whatever stands in its file, as one of epoch 1 without texts. One
    /// that is born is read, and nothing of it is changed.
    ///
    /// Nothing is promised of what a crash leaves of a log that is being made. After an `Err` it still isn't born, or it
    /// is a whole one without texts.
    ///
    /// `Broken(0)` comes only where the log was born, and isn't open with epoch 1. `Disk` comes only where a call of
    /// the host failed, and `NoMemory` is free.
    pub fn open<H: Host>(alloc: Global, host: &mut H) -> Result<OpenedLog, LogFault>
        requires { IsOpen (H.standing host.old) }
        ensures opens { IfOk result (Opens H.Source H.Host.own host.old host.new) }
        ensures broken { Told H.Source H.Host.own host.old → (number : ℕ) → IsErrOf result (LogFault.Broken number) → IsHeaderDamage number (H.files host.old).log }
        ensures moves { Moves H.Source H.Host.own FileKind.Log (IsOpening (H.files host.old) (H.history host.old).now) host.old host.new }
        ensures kept { Told H.Source H.Host.own host.old → is_born (H.files host.old).log ≡ true → H.files host.new ≡ H.files host.old }
        ensures begun { Told H.Source H.Host.own host.old → is_born (H.files host.old).log ≡ false → OnErr result (IsUnbornOrNew (H.files host.new).log) }
        ensures cause { HasLogCause (H.disk_faults host.old) (H.disk_faults host.new) result }
    {
        if Gated::is_born(host, FileKind::Log)? {
            let reader = LogReader::begin(alloc, host)?;
            return Ok(OpenedLog::Born(reader));
        }
        let log = Log::make(host)?;
        Ok(OpenedLog::New(log))
    }

    // Makes the log anew.
    fn make<H: Host>(host: &mut H) -> Result<Log, LogFault>
        requires { IsOpen (H.standing host.old) }
        ensures new { IfOk result (λ log. IsNew H.Source H.Host.own log host.new) }
        ensures changes { ChangesFile H.Source H.Host.own FileKind.Log IsAny host.old host.new }
        ensures begun { Told H.Source H.Host.own host.old → is_born (H.files host.old).log ≡ false → OnErr result (IsUnbornOrNew (H.files host.new).log) }
        ensures fails { FailsWith (H.disk_faults host.old) (H.disk_faults host.new) result }
    {
        let gated = Gated::create(host, FileKind::Log)?;
        Ok(Log { gated, last: None })
    }

    /// The session of its last text, and none where it has no text.
    pub fn last(&self) -> Option<u32>
        ensures { result ≡ last_in self.now }
    {
        self.last
    }

    /// How many bytes stand before the one that ends it. Each text takes at least 9.
    pub fn size(&self) -> u64
        ensures { result ≡ size_in self.now }
    {
        self.gated.end
    }

    /// Adds the text of a commit of a session behind the texts of the log.
    ///
    /// At each moment on the way a crash leaves a log of the same texts, or of these and the commit's. After an `Ok` it has
    /// the commit's, and stands so on the disk.
    ///
    /// After an `Err` this is unchanged, and the file is to be read again. `Disk` comes only where a call of
    /// the host failed. `NoMemory` is handed on from the host, and comes where the places don't fit in 64 bits.
    pub fn commit<H: Host>(
        &mut self,
        host: &mut H,
        session: u32,
        text: &Bytes,
    ) -> Result<(), LogFault>
        requires opened { IsOpen (H.standing host.old) }
        requires log { Told H.Source H.Host.own host.old → IsLog (H.history host.old) (H.files host.old) self.old }
        ensures changes { ChangesFile H.Source H.Host.own FileKind.Log (HasNoneOrAll (epoch_in self.old) (texts_of (H.files host.old).log) (text.now ∷ [])) host.old host.new }
        ensures fails { FailsWith (H.disk_faults host.old) (H.disk_faults host.new) result }
        ensures log { Told H.Source H.Host.own host.old → OnOk result (IsLog (H.history host.new) (H.files host.new) self.new) }
        ensures texts { Told H.Source H.Host.own host.old → OnOk result (texts_of (H.files host.new).log ≡ texts_of (H.files host.old).log ++ text.now ∷ []) }
        ensures last { OnOk result (last_in self.new ≡ Some session) }
        ensures epoch { epoch_in self.new ≡ epoch_in self.old }
        ensures room { (count : ℕ) → HasRoom count self.old → OnOk result (HasRoom (count + 1) self.new) }
        ensures err { OnErr result (self.new ≡ self.old) }
    {
        self.gated.append(host, text.as_slice())?;
        self.last = Some(session);
        Ok(())
    }

    /// Adds the texts of several commits, of which there is at least one, behind the texts of the log. The last is of this
    /// session. Its bytes are as if each had been added alone.
    ///
    /// At each moment on the way a crash leaves a log of the same texts, or of these and all of the new ones. After an `Ok`
    /// it has them all, and stands so on the disk.
    ///
    /// After an `Err` this is unchanged, and the file is to be read again. `Disk` comes only where a call of
    /// the host failed. `NoMemory` is handed on from the host, and comes where the places don't fit in 64 bits.
    pub fn commit_all<H: Host>(
        &mut self,
        host: &mut H,
        session: u32,
        texts: &Batch,
    ) -> Result<(), LogFault>
        requires opened { IsOpen (H.standing host.old) }
        requires some { 0 < length texts.now }
        requires log { Told H.Source H.Host.own host.old → IsLog (H.history host.old) (H.files host.old) self.old }
        ensures changes { ChangesFile H.Source H.Host.own FileKind.Log (HasNoneOrAll (epoch_in self.old) (texts_of (H.files host.old).log) texts.now) host.old host.new }
        ensures fails { FailsWith (H.disk_faults host.old) (H.disk_faults host.new) result }
        ensures log { Told H.Source H.Host.own host.old → OnOk result (IsLog (H.history host.new) (H.files host.new) self.new) }
        ensures texts { Told H.Source H.Host.own host.old → OnOk result (texts_of (H.files host.new).log ≡ texts_of (H.files host.old).log ++ texts.now) }
        ensures last { OnOk result (last_in self.new ≡ Some session) }
        ensures epoch { epoch_in self.new ≡ epoch_in self.old }
        ensures room { (count : ℕ) → HasRoom count self.old → OnOk result (HasRoom (count + length texts.now) self.new) }
        ensures err { OnErr result (self.new ≡ self.old) }
    {
        self.gated.append_all(host, texts)?;
        self.last = Some(session);
        Ok(())
    }
}
