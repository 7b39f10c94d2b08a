// Calls of a host, and what each is to answer.
ghost use Rattle.std.specs.Prelude.{◌≡◌};
ghost use Rattle.hs_host.specs.Files.{IsOpen};

use hs_host::{FileKind, Host, HostFault};
use std::process::Abort;

/// What a call must answer, and what it must leave in a buffer of four zeros.
pub type Row = (Step, Result<u64, HostFault>, [u8; 4]);

pub const ZEROS: [u8; 4] = [0; 4];

// A call of a host. A write, a cut and a read ask first for the file's length, and none goes beyond it.
pub enum Step {
    // Asks for up to four bytes of input.
    Ask,
    Tell(&'static [u8]),
    Len(FileKind),
    Write(FileKind, u64, &'static [u8]),
    Cut(FileKind, u64),
    Sync(FileKind),
    // Reads four bytes.
    Read(FileKind, u64),
}

fn write<H: Host>(host: &mut H, file: FileKind, at: u64, bytes: &[u8]) -> Result<u64, HostFault>
    requires { IsOpen (H.standing host.old) }
    ensures { H.standing host.new ≡ H.standing host.old }
{
    let at = host.len(file)?.min(at);
    host.write(file, at, bytes)?;
    Ok(at)
}

fn cut<H: Host>(host: &mut H, file: FileKind, len: u64) -> Result<u64, HostFault>
    requires { IsOpen (H.standing host.old) }
    ensures { H.standing host.new ≡ H.standing host.old }
{
    let len = host.len(file)?.min(len);
    host.cut(file, len)?;
    Ok(len)
}

fn read<H: Host>(host: &mut H, file: FileKind, at: u64, buf: &mut [u8; 4]) -> Result<u64, HostFault>
    requires { IsOpen (H.standing host.old) }
    ensures { H.standing host.new ≡ H.standing host.old }
{
    let len = host.len(file)?;
    if at <= len && len - at >= 4 {
        host.read(file, at, buf)?;
    }
    Ok(len)
}

fn sync<H: Host>(host: &mut H, file: FileKind) -> Result<u64, HostFault>
    requires { IsOpen (H.standing host.old) }
    ensures { H.standing host.new ≡ H.standing host.old }
{
    host.sync(file)?;
    Ok(0)
}

// Makes a call.
fn make<H: Host>(host: &mut H, step: &Step, buf: &mut [u8; 4]) -> Result<u64, HostFault>
    requires { IsOpen (H.standing host.old) }
    ensures { H.standing host.new ≡ H.standing host.old }
{
    match step {
        Step::Ask => Ok(host.read_input(buf)? as u64),
        Step::Tell(bytes) => Ok(host.write_output(bytes)? as u64),
        Step::Len(file) => host.len(*file),
        Step::Write(file, at, bytes) => write(host, *file, *at, bytes),
        Step::Cut(file, len) => cut(host, *file, *len),
        Step::Sync(file) => sync(host, *file),
        Step::Read(file, at) => read(host, *file, *at, buf),
    }
}

// Makes these calls, each of which must answer this and leave this in a buffer of zeros.
pub fn all_answer<H: Host>(rt: &impl Abort, host: &mut H, steps: &[Row])
    requires { IsOpen (H.standing host.old) }
    ensures { H.standing host.new ≡ H.standing host.old }
{
    for (step, answer, bytes) in steps {
        let mut buf = [0; 4];
        assert_eq!(rt; make(host, step, &mut buf), *answer);
        assert_eq!(rt; buf, *bytes);
    }
}
