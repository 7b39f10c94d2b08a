// Reads a gated file as a whole.
ghost use Rattle.std.specs.Prelude.{◌≡◌, IfOk, IfSome};
ghost use Rattle.hs_host.specs.Files.{of, IsOpen};
ghost use Rattle.hs_host.specs.Used.{Told, ReadsFiles};
ghost use Rattle.hs_gate.specs.Faults.{HasGateCause};

use crate::gate_fault::GateFault;
use crate::gated::Gated;
use crate::group_reader::GroupReader;
use hs_host::{FileKind, Host};
use std::alloc::Global;

impl Gated {
    ghost use Rattle.hs_gate.specs.Gated.{Answers, HasRoom, IsGated, reading_of};

    /// Reads a file to the end of its groups (`GroupReader`). It is for files that are written on or read by places, as the
    /// backup and the slots of the script will be; no crate of the program calls it yet.
    ///
    /// It answers none exactly where the file isn't open, and `Broken(g)` exactly where its group g, counted
    /// from 1, is the first that is broken. `Disk` comes only where a call of the host failed, and
    /// `NoMemory` is free.
    pub fn read<H: Host>(
        alloc: Global,
        host: &mut H,
        file: FileKind,
    ) -> Result<Option<Gated>, GateFault>
        requires { IsOpen (H.standing host.old) }
        ensures reading { Told H.Source H.Host.own host.old → Answers (reading_of file (of (H.files host.old) file)) result }
        ensures gated { Told H.Source H.Host.own host.old → IfOk result (λ gated. IfSome gated (IsGated (H.files host.new))) }
        ensures room { IfOk result (λ gated. IfSome gated (λ g. HasRoom g)) }
        ensures file { IfOk result (λ gated. IfSome gated (λ g. g.file ≡ file)) }
        ensures reads { ReadsFiles H.Source H.Host.own host.old host.new }
        ensures cause { HasGateCause (H.disk_faults host.old) (H.disk_faults host.new) result }
    {
        let Some(mut reader) = GroupReader::open(alloc, host, file)? else {
            return Ok(None);
        };
        'groups: while reader.advance(host)? {}
        Ok(Some(reader.gated()))
    }
}
