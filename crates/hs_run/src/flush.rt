// Hands output over to the host.
ghost use Rattle.std.specs.Prelude.{◌≡◌, [], ◌++◌, OnOk};
ghost use Rattle.hs_host.specs.Moments.{Since};
ghost use Rattle.hs_run.specs.Holding.{IsHandedOver, WritesPrefix};
ghost use Rattle.hs_run.specs.Prompt.{AsksNothing};
ghost use Rattle.hs_run.specs.Used.{HandsOver};

use crate::output::Output;
use crate::stop::Stop;
use hs_host::{Host, HostFault, tell};

/// Hands over all that is gathered. Nothing is gathered behind it, also where only a part could be handed over.
pub fn flush<H: Host>(output: &mut Output, host: &mut H) -> Result<(), Stop>
    ensures empty { output.new ≡ [] }
    ensures done { H.tells → OnOk result (H.written host.new ≡ H.written host.old ++ output.old) }
    ensures front { H.tells → WritesPrefix (H.written host.old) (H.written host.new) output.old }
    ensures moments { H.tells → Since (IsHandedOver (H.history host.old).now output.old) (H.history host.old) (H.history host.new) }
    ensures unasked { AsksNothing H.Source H.Host.own host.old host.new }
    ensures ends { HandsOver H.Source H.Host.own host.old host.new result }
{
    let result = write_all(host, output.as_bytes());
    output.clear();
    result
}

// Writes all the bytes.
fn write_all<H: Host>(host: &mut H, bytes: &[u8]) -> Result<(), Stop>
    ensures done { H.tells → OnOk result (H.written host.new ≡ H.written host.old ++ bytes.now) }
    ensures front { H.tells → WritesPrefix (H.written host.old) (H.written host.new) bytes.now }
    ensures moments { H.tells → Since (IsHandedOver (H.history host.old).now bytes.now) (H.history host.old) (H.history host.new) }
    ensures unasked { AsksNothing H.Source H.Host.own host.old host.new }
    ensures ends { HandsOver H.Source H.Host.own host.old host.new result }
{
    let mut rest = bytes;
    while !rest.is_empty() {
        let count = match tell(host, rest) {
            Ok(count) => count,
            Err(HostFault::Fault) => return Err(Stop::Output),
            Err(HostFault::NoMemory) => return Err(Stop::NoMemory),
        };
        if count == 0 {
            return Err(Stop::Output);
        }
        rest = &rest[count..];
    }
    Ok(())
}
