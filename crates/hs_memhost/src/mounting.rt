// How a host in memory was mounted.
ghost use Rattle.std.specs.Prelude.{◌≡◌, Some, None, true, false, OnOk, OnErr};

use hs_values::Bytes;
use std::alloc::{AllocError, Global};

/// The name under which a host was mounted, and whether its files are open.
#[derive(Drop)]
pub struct Mounting {
    alloc: Global,
    name: Option<Bytes>,
    is_open: bool,
}

impl Mounting {
    ghost use Rattle.hs_memhost.specs.Mounting.{standing_of};

    /// No name, and no file is open.
    pub fn new(alloc: Global) -> Mounting
        ensures name { result.name ≡ None }
        ensures is_open { result.is_open ≡ false }
    {
        Mounting {
            alloc,
            name: None,
            is_open: false,
        }
    }

    /// Keeps the name. After an `Err`, which is want of memory, nothing is changed.
    pub fn set_name(&mut self, name: &str) -> Result<(), AllocError>
        ensures ok { OnOk result (self.new ≡ record self.old { name = Some name.now }) }
        ensures err { OnErr result (self.new ≡ self.old) }
    {
        let name = name.as_bytes().to_vec(self.alloc)?;
        self.name = Some(Bytes::from_vec(name));
        Ok(())
    }

    /// From now on the files are open.
    pub fn set_open(&mut self)
        ensures { self.new ≡ record self.old { is_open = true } }
    {
        self.is_open = true;
    }
}
