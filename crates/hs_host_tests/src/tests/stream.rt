// A stream of one byte.
ghost use Rattle.std.specs.Prelude.{◌≡◌};

use std::io;
use std::io::{Read, Write};

/// A stream that is interrupted a few times, then has one byte and takes one, and fails from then on.
#[derive(Drop)]
pub struct OneByte {
    interruptions: u32,
    is_used: bool,
}

impl OneByte {
    pub fn after(interruptions: u32) -> OneByte {
        OneByte {
            interruptions,
            is_used: false,
        }
    }

    fn take(&mut self) -> io::Result<()> {
        if self.interruptions > 0 {
            self.interruptions -= 1;
            return Err(io::Error::from(io::ErrorKind::Interrupted));
        }
        if self.is_used {
            return Err(io::Error::from(io::ErrorKind::BrokenPipe));
        }
        self.is_used = true;
        Ok(())
    }
}

impl Read for OneByte {
    fn read(&mut self, buf: &mut [u8]) -> io::Result<usize> {
        self.take()?;
        match buf.first_mut() {
            Some(first) => {
                *first = b'i';
                Ok(1)
            }
            None => Ok(0),
        }
    }
}

impl Write for OneByte {
    fn write(&mut self, buf: &[u8]) -> io::Result<usize> {
        self.take()?;
        Ok(buf.len().min(1))
    }

    fn flush(&mut self) -> io::Result<()> {
        Ok(())
    }
}
