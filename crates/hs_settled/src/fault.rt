// Faults of calls that never stop.
ghost use Rattle.std.specs.Prelude.{◌≡◌};
ghost use Rattle.hs_settled.specs.Giving.{fault_of};

use hs_rel::EvalStop;
use hs_values::EvalFault;

/// The fault of a call that never stops; a stop counts as want of memory.
pub(crate) fn fault_of(stop: EvalStop) -> EvalFault
    ensures { result ≡ fault_of stop }
{
    match stop {
        EvalStop::Fault(fault) => fault,
        EvalStop::Stop(_) => EvalFault::NoMemory,
    }
}
