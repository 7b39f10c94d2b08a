// The header of a gated file.
ghost use Rattle.std.specs.Prelude.{◌≡◌, ◌≤◌, IfOk, OnOk, length, take};
ghost use Rattle.hs_host.specs.Files.{of, IsOpen};
ghost use Rattle.hs_host.specs.Used.{Told, ReadsFiles};
ghost use Rattle.hs_gate.specs.Groups.{number_of};
ghost use Rattle.hs_damages.specs.Sighting.{header_of, is_headed, open_epoch};
ghost use Rattle.hs_damages.specs.Stops.{FailsWith};

use crate::damage::Stop;
use hs_host::{FileKind, Host, len, read};

/// How many bytes a header and the byte behind it are.
const HEADER_BYTES: usize = 11;

/// What the header of a gated file shows.
#[derive(Clone, Copy, Debug, PartialEq, Eq)]
pub struct Header {
    /// Something stands in the file.
    pub is_there: bool,
    /// Its first byte is 1.
    pub is_born: bool,
    /// It has at least two bytes, and at least eleven where its header gate is 1.
    pub is_headed: bool,
    /// Its epoch, where it is open.
    pub epoch: Option<u64>,
}

impl Header {
    /// Reads the header of a file.
    ///
    /// `Disk` comes only where a call of the host failed, and `NoMemory` is handed on from the host.
    pub fn read<H: Host>(host: &mut H, file: FileKind) -> Result<Header, Stop>
        requires { IsOpen (H.standing host.old) }
        ensures header { Told H.Source H.Host.own host.old → IfOk result (λ header. header ≡ header_of (of (H.files host.old) file)) }
        ensures reads { ReadsFiles H.Source H.Host.own host.old host.new }
        ensures fails { FailsWith (H.disk_faults host.old) (H.disk_faults host.new) result }
    {
        let length = len(host, file)?;
        let count = length.min(HEADER_BYTES as u64) as usize;
        let mut bytes = [0; HEADER_BYTES];
        read_front(host, file, &mut bytes, count)?;
        Ok(Header::of(&bytes[..count]))
    }

    // What a file shows that begins with these bytes, of which there are eleven or all that it has.
    fn of(front: &[u8]) -> Header
        ensures { result ≡ header_of front.now }
    {
        Header {
            is_there: !front.is_empty(),
            is_born: !front.is_empty() && front[0] == 1,
            is_headed: is_headed(front),
            epoch: open_epoch(front),
        }
    }
}

// Reads so many bytes from the front of a file to the front of a buffer.
fn read_front<H: Host>(
    host: &mut H,
    file: FileKind,
    buffer: &mut [u8],
    count: usize,
) -> Result<(), Stop>
    requires opened { IsOpen (H.standing host.old) }
    requires fits { count ≤ length buffer.old }
    requires within { Told H.Source H.Host.own host.old → count ≤ length (of (H.files host.old) file) }
    ensures bytes { Told H.Source H.Host.own host.old → OnOk result (take count buffer.new ≡ take count (of (H.files host.old) file)) }
    ensures reads { ReadsFiles H.Source H.Host.own host.old host.new }
    ensures fails { FailsWith (H.disk_faults host.old) (H.disk_faults host.new) result }
{
    read(host, file, 0, &mut buffer[..count])?;
    Ok(())
}

fn is_headed(front: &[u8]) -> bool
    ensures { result ≡ is_headed front.now }
{
    front.len() >= 2 && (front[1] != 1 || front.len() >= HEADER_BYTES)
}

// The epoch, where there is one and the gate is open.
fn open_epoch(front: &[u8]) -> Option<u64>
    ensures { result ≡ open_epoch front.now }
{
    if front.len() >= HEADER_BYTES && front[1] == 1 {
        Some(number(&front[2..]))
    } else {
        None
    }
}

// The number that the first 8 bytes spell, big-endian.
fn number(bytes: &[u8]) -> u64
    requires { 8 ≤ length bytes.now }
    ensures { result ≡ number_of bytes.now }
{
    match bytes.first_chunk::<8>() {
        Some(first) => u64::from_be_bytes(*first),
        None => 0,
    }
}
