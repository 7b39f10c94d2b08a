// Reads of a file into memory.
ghost use Rattle.std.specs.Prelude.{◌≡◌, ◌+◌, ◌^◌, ◌<◌, ◌≤◌, length, take, slice_index, IfOk, OnOk};
ghost use Rattle.hs_host.specs.Files.{of, piece, IsOpen};
ghost use Rattle.hs_host.specs.Used.{Told, ReadsFiles};
ghost use Rattle.hs_gate.specs.Faults.{FailsWith};

use crate::gate_fault::GateFault;
use hs_host::{FileKind, Host, read};
use hs_values::Bytes;
use std::alloc::Global;

/// One byte of a file.
pub fn byte_at<H: Host>(host: &mut H, file: FileKind, at: u64) -> Result<u8, GateFault>
    requires opened { IsOpen (H.standing host.old) }
    requires within { Told H.Source H.Host.own host.old → at < length (of (H.files host.old) file) }
    ensures reads { ReadsFiles H.Source H.Host.own host.old host.new }
    ensures fails { FailsWith (H.disk_faults host.old) (H.disk_faults host.new) result }
    ensures byte { Told H.Source H.Host.own host.old → IfOk result (λ byte. byte ≡ slice_index (of (H.files host.old) file) at) }
{
    let mut byte = [0; 1];
    read(host, file, at, &mut byte)?;
    Ok(byte[0])
}

/// Reads so many bytes of a file to the front of a buffer.
pub fn read_front<H: Host>(
    host: &mut H,
    file: FileKind,
    at: u64,
    buffer: &mut [u8],
    count: usize,
) -> Result<(), GateFault>
    requires opened { IsOpen (H.standing host.old) }
    requires fits { count ≤ length buffer.old }
    requires within { Told H.Source H.Host.own host.old → at + count ≤ length (of (H.files host.old) file) }
    ensures bytes { H.tells → OnOk result (take count buffer.new ≡ piece at count (of (H.files host.new) file)) }
    ensures reads { ReadsFiles H.Source H.Host.own host.old host.new }
    ensures fails { FailsWith (H.disk_faults host.old) (H.disk_faults host.new) result }
{
    read(host, file, at, &mut buffer[..count])?;
    Ok(())
}

/// The payload of a group, which begins at a place. The first bytes there were read already. `NoMemory` is free.
pub fn read_payload<H: Host>(
    alloc: Global,
    host: &mut H,
    file: FileKind,
    at: u64,
    size: u64,
    first: &[u8],
) -> Result<Bytes, GateFault>
    requires opened { IsOpen (H.standing host.old) }
    requires room { at + size < 2 ^ 64 }
    requires within { Told H.Source H.Host.own host.old → at + size ≤ length (of (H.files host.old) file) }
    requires first { Told H.Source H.Host.own host.old → first.now ≡ piece at (length first.now) (of (H.files host.old) file) }
    ensures payload { Told H.Source H.Host.own host.old → IfOk result (λ payload. payload ≡ piece at size (of (H.files host.old) file)) }
    ensures size { IfOk result (λ payload. length payload ≡ size) }
    ensures reads { ReadsFiles H.Source H.Host.own host.old host.new }
    ensures fails { FailsWith (H.disk_faults host.old) (H.disk_faults host.new) result }
{
    let size = size as usize;
    if size <= first.len() {
        return Ok(Bytes::from_vec(first[..size].to_vec(alloc)?));
    }
    let mut payload = vec![in alloc; 0; size]?;
    read_behind(host, file, at, first, &mut payload)?;
    Ok(Bytes::from_vec(payload))
}

// Fills a buffer with the bytes of a file from a place on, the first of which are these.
fn read_behind<H: Host>(
    host: &mut H,
    file: FileKind,
    at: u64,
    first: &[u8],
    buffer: &mut [u8],
) -> Result<(), GateFault>
    requires opened { IsOpen (H.standing host.old) }
    requires longer { length first.now ≤ length buffer.old }
    requires room { at + length buffer.old < 2 ^ 64 }
    requires within { Told H.Source H.Host.own host.old → at + length buffer.old ≤ length (of (H.files host.old) file) }
    requires first { Told H.Source H.Host.own host.old → first.now ≡ piece at (length first.now) (of (H.files host.old) file) }
    ensures bytes { Told H.Source H.Host.own host.old → OnOk result (buffer.new ≡ piece at (length buffer.new) (of (H.files host.old) file)) }
    ensures reads { ReadsFiles H.Source H.Host.own host.old host.new }
    ensures fails { FailsWith (H.disk_faults host.old) (H.disk_faults host.new) result }
{
    let known = first.len();
    buffer[..known].copy_from_slice(first);
    read(host, file, at + known as u64, &mut buffer[known..])?;
    Ok(())
}
