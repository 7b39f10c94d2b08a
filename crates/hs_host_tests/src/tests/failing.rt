// What a crash may leave of a write and of a cut that failed.
ghost use Rattle.std.specs.Prelude.{◌≡◌, ◌≤◌, ℕ, length, take, IsErrOf};
ghost use Rattle.hs_host.specs.Disk.{Leaves, settled};
ghost use Rattle.hs_host.specs.Files.{of, overwrite};
ghost use Rattle.hs_host.specs.Moments.{disk_of};

use hs_host::{FileKind, Host, HostFault};
use hs_memhost::{CallList, Images, MemHost};
use hs_values::Bytes;
use std::alloc::Global;
use std::test::Fail;

// A new host with these bytes as its log, of which the calls in a list fail. All of it is on the disk.
fn new_host(alloc: Global, log: Vec<u8>, failing: CallList) -> MemHost
    ensures { disk_of (⟦<MemHost as Host>⟧.history result).now FileKind.Log ≡ settled (of (⟦<MemHost as Host>⟧.files result) FileKind.Log) }
{
    let mut files = Images::new(alloc);
    files.log = Bytes::from_vec(log);
    MemHost::new(alloc, Bytes::new(alloc), files, false, failing)
}

// Writes into a file that was just synced. Where that fails, a crash may leave the file with none of the bytes, with any
// first part of them, or with all.
fn write_or_part(host: &mut MemHost, file: FileKind, at: u64, bytes: &[u8]) -> Result<(), HostFault>
    requires within { at ≤ length (of (⟦<MemHost as Host>⟧.files host.old) file) }
    requires quiet { disk_of (⟦<MemHost as Host>⟧.history host.old).now file ≡ settled (of (⟦<MemHost as Host>⟧.files host.old) file) }
    ensures { IsErrOf result HostFault.Fault → (count : ℕ) → Leaves (disk_of (⟦<MemHost as Host>⟧.history host.new).now file) (overwrite (of (⟦<MemHost as Host>⟧.files host.old) file) at (take count bytes.now)) }
{
    host.write(file, at, bytes)
}

// Cuts a file that was just synced. Where that fails, a crash may leave the file as it was, cut, or of any length between.
fn cut_or_part(host: &mut MemHost, file: FileKind, len: u64) -> Result<(), HostFault>
    requires { disk_of (⟦<MemHost as Host>⟧.history host.old).now file ≡ settled (of (⟦<MemHost as Host>⟧.files host.old) file) }
    ensures { IsErrOf result HostFault.Fault → (count : ℕ) → len ≤ count → Leaves (disk_of (⟦<MemHost as Host>⟧.history host.new).now file) (take count (of (⟦<MemHost as Host>⟧.files host.old) file)) }
{
    host.cut(file, len)
}

#[test]
fn a_write_that_fails_is_not_read(rt: HostRuntime) -> Result<(), Fail> {
    let alloc = rt.alloc();
    let first = CallList::from_vec([0].to_vec(alloc)?);
    let mut host = new_host(alloc, b"ab".to_vec(alloc)?, first);
    assert_eq!(rt;
        write_or_part(&mut host, FileKind::Log, 0, b"xyz"),
        Err(HostFault::Fault)
    );
    assert_eq!(rt; host.image(FileKind::Log), b"ab".as_slice());
    Ok(())
}

#[test]
fn a_cut_that_fails_is_not_read(rt: HostRuntime) -> Result<(), Fail> {
    let alloc = rt.alloc();
    let first = CallList::from_vec([0].to_vec(alloc)?);
    let mut host = new_host(alloc, b"ab".to_vec(alloc)?, first);
    assert_eq!(rt;
        cut_or_part(&mut host, FileKind::Log, 1),
        Err(HostFault::Fault)
    );
    assert_eq!(rt; host.image(FileKind::Log), b"ab".as_slice());
    Ok(())
}
