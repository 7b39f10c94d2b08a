// Five files in memory, as a host takes them.
ghost use Rattle.std.specs.Prelude.{◌≡◌, [], IfOk};

use hs_values::Bytes;
use std::alloc::{AllocError, Global};

/// The bytes of the five files of a database.
#[derive(Debug, Drop)]
pub struct Images {
    /// `.script`.
    pub script0: Bytes,
    /// `.script.new`.
    pub script1: Bytes,
    /// `.log`.
    pub log: Bytes,
    /// `.data`.
    pub pages: Bytes,
    /// `.backup`.
    pub backup: Bytes,
}

impl Images {
    /// Five empty files. Takes no memory.
    pub fn new(alloc: Global) -> Images
        ensures { result ≡ record { script0 = []; script1 = []; log = []; pages = []; backup = [] } }
    {
        Images {
            script0: Bytes::new(alloc),
            script1: Bytes::new(alloc),
            log: Bytes::new(alloc),
            pages: Bytes::new(alloc),
            backup: Bytes::new(alloc),
        }
    }

    /// The same bytes once more. Its only `Err` comes where memory is refused.
    pub fn copy(&self) -> Result<Images, AllocError>
        ensures { IfOk result (λ copied. copied ≡ self.now) }
    {
        Ok(Images {
            script0: self.script0.copy()?,
            script1: self.script1.copy()?,
            log: self.log.copy()?,
            pages: self.pages.copy()?,
            backup: self.backup.copy()?,
        })
    }
}
