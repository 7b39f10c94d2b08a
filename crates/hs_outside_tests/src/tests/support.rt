// Hosts in memory whose files are open.
ghost use Rattle.std.specs.Prelude.{IfOk};
ghost use Rattle.hs_host.specs.Files.{IsOpen};

use hs_host::Host;
use hs_memhost::{CallList, Images, MemHost};
use hs_values::Bytes;
use std::alloc::Global;
use std::test::Fail;

/// A host with these bytes as its log, whose files are open.
pub fn opened(alloc: Global, log: Vec<u8>, failing: CallList) -> Result<MemHost, Fail>
    ensures { IfOk result (λ host. IsOpen (⟦<MemHost as Host>⟧.standing host)) }
{
    let mut files = Images::new(alloc);
    files.log = Bytes::from_vec(log);
    let mut host = MemHost::new(alloc, Bytes::new(alloc), files, false, failing);
    host.mount("d")?;
    Ok(host)
}

/// The list of one call.
pub fn one_call(alloc: Global, call: u64) -> Result<CallList, Fail> {
    Ok(CallList::from_vec([call].to_vec(alloc)?))
}
